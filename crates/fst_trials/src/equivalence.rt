//! The grammars of types, and whether types are equivalent.

use fst_equiv::Verdict;
use fst_lts::{agree_to, residual};
use fst_print::word_text;
use fst_samples::{asked, translated, ty, verdict_text};
use fst_tables::{digits_text, each_line, fields, no_row};
use fst_types::{Label, Side, Ty};
use fst_words::Grammar;
use std::alloc::{AllocError, Global};
use std::test::Fail;

/// The rules of a grammar, such as `02 1 / 03`: a digit for the letter and the word of each, `/` between non-terminals.
fn rules_text(alloc: Global, g: &Grammar) -> Result<String, AllocError> {
    let mut text = String::new(alloc);
    for (n, rules) in g.rules.iter().enumerate() {
        if n > 0 {
            text.push_str(" /")?;
        }
        for rule in rules.as_slice() {
            text.push(' ')?;
            text.push_str(&digits_text(alloc, &[rule.letter])?)?;
            text.push_str(&digits_text(alloc, rule.word.as_slice())?)?;
        }
    }
    Ok(text)
}

// The codes of two types; the letters of their grammar, its rules, and the words of the two types.
const TRANSLATIONS: &str = "\
! ¦ ? = !Int ?Bool ¦ 0 / 1 ¦ 0 ¦ 1
? ¦ ! = !Int ?Bool ¦ 0 / 1 ¦ 1 ¦ 0
s ¦ s = empty ¦ empty ¦ empty ¦ empty
;;s!;!s ¦ ! = !Int ¦ 0 ¦ 00 ¦ 0
;a! ¦ b = !Int a1 a2 ¦ 0 / 1 / 2 ¦ 10 ¦ 2
;rs;!rrs ¦ r;ss = !Int ¦ 0 ¦ 0 ¦ empty
s ¦ -? = ?Bool +B ¦ 0 / 10 ¦ empty ¦ 1
-? ¦ s = ?Bool +B ¦ 0 / 10 ¦ 1 ¦ empty
+&ss-! ¦ &!s = !Int +A +B &A &B ¦ 0 / 12 23 / 3 4 / 20 / 30 4 ¦ 1 ¦ 4
;-!-! ¦ ;?-! = !Int ?Bool +B ¦ 0 / 1 / 20 ¦ 22 ¦ 12
-s ¦ -! = !Int +B ¦ 0 / 1 / 10 ¦ 1 ¦ 2
-! ¦ -s = !Int +B ¦ 0 / 10 / 1 ¦ 1 ¦ 2
*-!-! ¦ -! = !Int +A +B +C ¦ 0 / 12 32 / 20 ¦ 1 ¦ 2
;+;!?s! ¦ s = !Int ?Bool +A +B ¦ 0 / 1 / 201 3 ¦ 20 ¦ empty
r;!0 ¦ s = !Int ¦ 0 / 01 ¦ 1 ¦ empty
r*-0-0 ¦ r*-0-0 = +A +B +C ¦ 02 23 / 02 23 / 10 / 10 ¦ 0 ¦ 0
rr;!;10 ¦ ! = !Int ¦ 0 / 012 / 012 ¦ 1 ¦ 0
r;!r;1;?0 ¦ s = !Int ?Bool ¦ 0 / 1 / 03 / 0313 ¦ 2 ¦ empty
r+0-! ¦ -! = !Int +A +B ¦ 0 / 11 23 / 11 23 / 20 ¦ 1 ¦ 3
r;+0s? ¦ s = ?Bool +A +B ¦ 0 / 110 20 / 11 2 ¦ 1 ¦ empty
r;!0 ¦ r;r;!00 = !Int ¦ 0 / 01 / 012 ¦ 1 ¦ 2
r;r+0s;?0 ¦ s = ?Bool +A +B ¦ 0 / 1201 201 / 12 2 / 12 2 ¦ 1 ¦ empty
;r;!0rs ¦ r&0s = !Int &A &B ¦ 0 / 01 / 12 2 / 12 2 ¦ 1 ¦ 2
k ¦ w = Close Wait ¦ 02 / 12 / ¦ 0 ¦ 1
;k! ¦ k = !Int Close ¦ 0 / 12 / ¦ 10 ¦ 1
s ¦ +ks = +A +B Close ¦ 22 / 00 1 / ¦ empty ¦ 1";

fn or_empty(text: &str) -> &str {
    let text = text.trim();
    if text.is_empty() { "empty" } else { text }
}

fn translation_row(alloc: Global, given: &str) -> Result<String, Fail> {
    let fields = fields(alloc, given)?;
    let [left, right] = fields.as_slice() else {
        return Err(no_row());
    };
    let Ok((g, word, other)) = translated(alloc, &ty(alloc, left)?, &ty(alloc, right)?) else {
        return Err(Fail::new("no translation"));
    };
    let letters = word_text(alloc, &g.letters)?;
    let rules = rules_text(alloc, &g)?;
    let word = digits_text(alloc, word.as_slice())?;
    let other = digits_text(alloc, other.as_slice())?;
    let mut text = String::from_str(alloc, or_empty(&letters))?;
    for field in [&rules, &word, &other] {
        text.push_str(" ¦ ")?;
        text.push_str(or_empty(field))?;
    }
    Ok(text)
}

#[test]
fn types_have_grammars(rt: HostRuntime) -> Result<(), Fail> {
    each_line(rt.alloc(), TRANSLATIONS, translation_row)
}

// The codes of two types and a budget; the verdict. The third two are `(rec x.+{A:Skip,C:!Int;x;x});!Bool` and the same with
// one `Skip` more: their pairs never end, but they lead to one cut, and four heads are dropped. The fourth two reach one pair, which is
// their one cut, and one head is dropped.
const VERDICTS: &str = "\
;r;!0? ¦ r;!;!0 ¦ 1 = undecided 1
;r;!0? ¦ r;!;!0 ¦ 2 = yes by basis 2-3 2-03
;r;!0? ¦ r;!;!0 ¦ 3 = yes by basis 2-3 2-03
;r;!0? ¦ r;!;!0 ¦ 4 = yes by basis 2-3 2-03
;r;!0? ¦ r;!;!0 ¦ 1000 = yes by basis 2-3 2-03
r+;0!s ¦ r+;0^s ¦ 1 = undecided 1
r+;0!s ¦ r+;0^s ¦ 3 = undecided 3
r+;0!s ¦ r+;0^s ¦ 4 = no +A +B !Int left
r+;0!s ¦ r+;0^s ¦ 1000 = no +A +B !Int left
;r*s;!;00^ ¦ ;r*s;!;0;0s^ ¦ 1 = undecided 1
;r*s;!;00^ ¦ ;r*s;!;0;0s^ ¦ 3 = undecided 3
;r*s;!;00^ ¦ ;r*s;!;0;0s^ ¦ 4 = undecided 4
;r*s;!;00^ ¦ ;r*s;!;0;0s^ ¦ 5 = yes by basis 2-4
;r*s;!;00^ ¦ ;r*s;!;0;0s^ ¦ 35 = yes by basis 2-4
;r*s;!;00^ ¦ ;r*s;!;0;0s^ ¦ 36 = yes by basis 4-2 2-4
;-!? ¦ -;!? ¦ 1 = yes 21-3
;-!? ¦ -;!? ¦ 2 = yes by basis 21-3
;s! ¦ ;!s ¦ 1 = yes by basis
! ¦ @ ¦ 1 = no !Int left
^ ¦ @ ¦ 1 = no !Bool left
i ¦ s ¦ 1 = memory
k ¦ w ¦ 1 = no Close left
;!k ¦ ! ¦ 2 = no !Int Close left";

fn verdict_row(alloc: Global, given: &str) -> Result<String, Fail> {
    let fields = fields(alloc, given)?;
    let [left, right, budget] = fields.as_slice() else {
        return Err(no_row());
    };
    let budget = budget.parse::<u32>()?;
    let found = asked(alloc, &ty(alloc, left)?, &ty(alloc, right)?, budget);
    Ok(verdict_text(alloc, &found)?)
}

#[test]
fn types_have_verdicts_within_a_budget(rt: HostRuntime) -> Result<(), Fail> {
    each_line(rt.alloc(), VERDICTS, verdict_row)
}

// The codes of session types.
const SESSIONS: &str =
    "s ! @ ;s! ;!s ;!! ;!? ;;!?% ;!;?% ;;sss -s _s +!s &s! ;+!s? +;!?? +;!?@ ;&!s? &;!?s r;!0 r;!;!0 r;!;0? r+0s r+;0!s +;r+;0!s!s r;r+0s;?0";

fn performs(alloc: Global, t: &Ty, word: &[Label]) -> Result<bool, AllocError> {
    Ok(residual(alloc, t, word)?.is_some())
}

/// Whether a verdict within 1,000 pairs is that of a comparison by the definition, as deep as it goes.
fn is_right(alloc: Global, s: &Ty, r: &Ty) -> Result<bool, Fail> {
    match asked(alloc, s, r, 1000) {
        Ok(Verdict::No(word, side)) => {
            let depth = u32::try_from(word.len())?;
            let (does, does_not) = match side {
                Side::Left => (s, r),
                Side::Right => (r, s),
            };
            Ok(
                performs(alloc, does, &word)?
                    && !performs(alloc, does_not, &word)?
                    && !agree_to(alloc, s, r, depth)?
                    && agree_to(alloc, s, r, depth.saturating_sub(1))?,
            )
        }
        Ok(_) => Ok(agree_to(alloc, s, r, 5)?),
        Err(_) => Err(Fail::new("no verdict")),
    }
}

#[test]
fn verdicts_are_those_of_the_definition(rt: HostRuntime) -> Result<(), Fail> {
    let alloc = rt.alloc();
    for left in SESSIONS.split(' ') {
        for right in SESSIONS.split(' ') {
            let is_right = is_right(alloc, &ty(alloc, left)?, &ty(alloc, right)?)?;
            assert!(rt; is_right, "{left} and {right}");
        }
    }
    Ok(())
}
