//! Grammars as text, the norms of their non-terminals, and the search for a difference of two words.

ghost use Rattle.std.specs.Prelude.{◌↔◌, ◌<◌, IsTrue, IfOk, All};
ghost use Rattle.fst_base.specs.Order.{IsRising};
ghost use Rattle.fst_words.specs.Words.{LettersBelow};
ghost use Rattle.fst_types.specs.Order.{label_cmp};

use fst_breadth::{Found, search};
use fst_norms::{norms, prune, unnormed};
use fst_print::{side_text, word_text};
use fst_tables::{digits_text, each_line, fields, no_row, pairs_text};
use fst_types::{Base, Label};
use fst_words::{Grammar, Rule, Rules, Word, is_below, is_in_range, step};
use std::alloc::{AllocError, Global};
use std::test::Fail;

/// The letters of the grammars here: 0 is `!Int`, 1 is `?Int`, 2 is `?Bool`, and 3 is the variable `a1`.
fn letters(alloc: Global) -> Result<Vec<Label>, AllocError>
    ensures { IfOk result (λ letters. IsRising label_cmp letters.items) }
{
    let mut letters = Vec::new(alloc);
    letters.push(Label::Send(Base::Int))?;
    letters.push(Label::Receive(Base::Int))?;
    letters.push(Label::Receive(Base::Bool))?;
    letters.push(Label::Var(0))?;
    Ok(letters)
}

pub(crate) fn digits(alloc: Global, text: &str) -> Result<Vec<u32>, AllocError> {
    let mut numbers = Vec::new(alloc);
    for byte in text.as_bytes() {
        numbers.push(byte.saturating_sub(b'0') as u32)?;
    }
    Ok(numbers)
}

pub(crate) fn one_digit(text: &str) -> u32 {
    match text.as_bytes() {
        [digit] => digit.saturating_sub(b'0') as u32,
        _ => 0,
    }
}

fn rules(alloc: Global, text: &str) -> Result<Vec<Rule>, AllocError> {
    let mut rules = Vec::new(alloc);
    for rule in text.split_whitespace() {
        let numbers = digits(alloc, rule)?;
        if let Some((letter, word)) = numbers.split_first() {
            rules.push(Rule {
                letter: *letter,
                word: Word::of(alloc, word)?,
            })?;
        }
    }
    Ok(rules)
}

/// Rules that are in order.
fn ordered(rules: Vec<Rule>) -> Result<Rules, Fail> {
    match Rules::of(rules) {
        Ok(rules) => Ok(rules),
        Err(_) => Err(Fail::new("rules out of order")),
    }
}

fn row(alloc: Global, text: &str) -> Result<Rules, Fail> {
    ordered(rules(alloc, text)?)
}

/// The grammar of a text, in which non-terminals and letters are digits: `02 1 / 03` is the grammar whose non-terminal 0
/// has rules by letter 0 to the word 2 and by letter 1 to the empty word, and whose non-terminal 1 has one by 0 to 3.
pub(crate) fn grammar(alloc: Global, text: &str) -> Result<Grammar, Fail>
    ensures { IfOk result (λ g. IsRising label_cmp g.letters.items) }
{
    let mut rules = Vec::new(alloc);
    for part in text.split('/') {
        rules.push(row(alloc, part)?)?;
    }
    let letters = letters(alloc)?;
    Ok(Grammar { letters, rules })
}

// `X0 -> !Int X0 X1 | ?Int`, `X1 -> ?Int X1 X2`, and no rule for X2.
const STEPS: &str = "001 1 / 112 / ";

// A word, a letter, and the word after it in the grammar above, `empty` or `none`.
const WORDS: &str = "\
¦ 0 = none
0 ¦ 0 = 01
0 ¦ 1 = empty
0 ¦ 2 = none
012 ¦ 0 = 0112
012 ¦ 1 = 12
10 ¦ 0 = none
10 ¦ 1 = 120
2 ¦ 0 = none
20 ¦ 1 = none";

fn after(alloc: Global, given: &str) -> Result<String, Fail> {
    let fields = fields(alloc, given)?;
    let [word, letter] = fields.as_slice() else {
        return Err(no_row());
    };
    let g = grammar(alloc, STEPS)?;
    let word = Word::of(alloc, &digits(alloc, word)?)?;
    if !is_in_range(&g) || !is_below(word.as_slice(), g.rules.len()) {
        return Err(Fail::new("out of range"));
    }
    match step(alloc, &g, &word, one_digit(letter))? {
        Some(next) if next.as_slice().is_empty() => Ok(String::from_str(alloc, "empty")?),
        Some(next) => Ok(digits_text(alloc, next.as_slice())?),
        None => Ok(String::from_str(alloc, "none")?),
    }
}

#[test]
fn words_move_by_the_rules_of_their_first(rt: HostRuntime) -> Result<(), Fail> {
    each_line(rt.alloc(), WORDS, after)
}

#[test]
fn words_are_lists_of_numbers(rt: HostRuntime) -> Result<(), Fail> {
    let alloc = rt.alloc();
    let mut word = Word::concat(alloc, &[3, 1], &[2])?;
    assert!(rt; word.same(&Word::of(alloc, &[3, 1, 2])?));
    word.truncate(1);
    assert_eq!(rt; word.as_slice(), [3].as_slice());
    let again = Word::from_vec(word.into_vec());
    assert_eq!(rt; again.as_slice(), [3].as_slice());
    Ok(())
}

// Rules, and whether they stand in the order of their letters, with at most one for each.
const ORDERS: &str = "\
3 = true
0 3 = true
3 31 = false
0 3 2 = false";

fn is_ordered(alloc: Global, given: &str) -> Result<String, Fail> {
    let rules = rules(alloc, given)?;
    Ok(format!(in alloc; "{}", Rules::of(rules).is_ok())?)
}

#[test]
fn rules_stand_in_the_order_of_their_letters(rt: HostRuntime) -> Result<(), Fail> {
    each_line(rt.alloc(), ORDERS, is_ordered)
}

// A grammar and a word; the norms of the non-terminals, with `-` for none, and the word pruned.
const NORMS: &str = "\
¦ 00 = - ¦ 0
0 ¦ 00 = 1 ¦ 00
00 ¦ 00 = - ¦ 0
011 / 0 ¦ 0101 = 3 1 ¦ 0101
01 / 00 ¦ 10 = - - ¦ 1
000 111 21 / 02 / 0 ¦ 210 = 3 2 1 ¦ 210
010 12 / 0 / 011 ¦ 012 = 4 1 3 ¦ 012
00 112 / 0 / 012 ¦ 1121 = - 1 - ¦ 112
0 / 01 / 02 10 / 001 14 / ¦ 02301 = 1 - 2 - - ¦ 023
0 / 01 / 02 10 / 001 14 / ¦ 201 = 1 - 2 - - ¦ 201
0 / 01 / 02 10 / 001 14 / ¦  = 1 - 2 - - ¦";

fn norms_text(alloc: Global, norms: &[Option<u64>]) -> Result<String, Fail> {
    let mut text = String::new(alloc);
    for norm in norms {
        match norm {
            Some(norm) => write!(text, " {norm}")?,
            None => write!(text, " -")?,
        }
    }
    Ok(text)
}

fn norms_row(alloc: Global, given: &str) -> Result<String, Fail> {
    let fields = fields(alloc, given)?;
    let [rows, word] = fields.as_slice() else {
        return Err(no_row());
    };
    let g = grammar(alloc, rows)?;
    if !is_in_range(&g) {
        return Err(Fail::new("out of range"));
    }
    let norms = norms(alloc, &g)?;
    let marks = unnormed(alloc, &g)?;
    let mut word = Word::of(alloc, &digits(alloc, word)?)?;
    if !is_below(word.as_slice(), marks.len()) || !are_marked(&norms, &marks) {
        return Err(Fail::new("out of range, or other marks than norms"));
    }
    prune(&mut word, &marks);
    let pruned = digits_text(alloc, word.as_slice())?;
    Ok(format!(in alloc; "{} ¦ {pruned}", norms_text(alloc, &norms)?)?)
}

/// Whether exactly those are marked that have no norm.
fn are_marked(norms: &[Option<u64>], marks: &[bool]) -> bool {
    for (n, norm) in norms.iter().enumerate() {
        if marks.get(n).copied() != Some(norm.is_none()) {
            return false;
        }
    }
    norms.len() == marks.len()
}

#[test]
fn norms_are_shortest_ways_and_words_end_behind_none(rt: HostRuntime) -> Result<(), Fail> {
    each_line(rt.alloc(), NORMS, norms_row)
}

// A grammar of so many non-terminals, each with one rule, whose word has the next non-terminal once and the last one so
// many times.
fn chain(alloc: Global, count: u32, times: usize) -> Result<Grammar, Fail> {
    let mut all = Vec::new(alloc);
    for i in 0..count {
        let mut word = Vec::new(alloc);
        if i + 1 < count {
            word.push(i + 1)?;
            for _ in 0..times {
                word.push(count - 1)?;
            }
        }
        let mut rules = Vec::new(alloc);
        let word = Word::of(alloc, &word)?;
        rules.push(Rule { letter: 0, word })?;
        all.push(ordered(rules)?)?;
    }
    let letters = letters(alloc)?;
    Ok(Grammar {
        letters,
        rules: all,
    })
}

// `X0 -> a`, and `X(i+1) -> a Xi Xi`: the norm of `Xi` is 2^(i+1) - 1.
fn doubling(alloc: Global, count: u32) -> Result<Grammar, Fail> {
    let mut all = Vec::new(alloc);
    for i in 0..count {
        let word = if i == 0 {
            Word::of(alloc, &[])?
        } else {
            Word::of(alloc, &[i - 1, i - 1])?
        };
        let mut rules = Vec::new(alloc);
        rules.push(Rule { letter: 0, word })?;
        all.push(ordered(rules)?)?;
    }
    let letters = letters(alloc)?;
    Ok(Grammar {
        letters,
        rules: all,
    })
}

// The norm of one non-terminal.
fn norm_at(alloc: Global, g: &Grammar, at: usize) -> Result<u64, Fail> {
    if !is_in_range(g) {
        return Err(Fail::new("out of range"));
    }
    let found = norms(alloc, g)?;
    match found.get(at) {
        Some(Some(norm)) => Ok(*norm),
        _ => Err(Fail::new("no norm")),
    }
}

fn doubled(alloc: Global, given: &str) -> Result<String, Fail> {
    let at = given.parse::<usize>()?;
    let norm = norm_at(alloc, &doubling(alloc, 70)?, at)?;
    Ok(format!(in alloc; "{norm}")?)
}

#[test]
fn norms_stay_at_two_to_the_63(rt: HostRuntime) -> Result<(), Fail> {
    let table = "\
0 = 1
9 = 1023
61 = 4611686018427387903
62 = 9223372036854775807
63 = 9223372036854775808
69 = 9223372036854775808";
    each_line(rt.alloc(), table, doubled)
}

#[test]
fn a_million_letters_have_norms(rt: HostRuntime) -> Result<(), Fail> {
    let g = chain(rt.alloc(), 4000, 249)?;
    assert_eq!(rt; norm_at(rt.alloc(), &g, 0)?, 3999 * 250 + 1);
    Ok(())
}

fn is_row_below(count: usize, rules: &Rules) -> bool
    ensures { IsTrue result ↔ All (λ r. r.letter < count) rules.now }
{
    rules.as_slice().iter().all(|r| (r.letter as usize) < count)
}

pub(crate) fn are_letters_below(count: usize, rules: &[Rules]) -> bool
    ensures { IsTrue result ↔ LettersBelow count rules.now }
{
    rules.iter().all(|row| is_row_below(count, row))
}

/// The answer of the search for two words, pruned.
fn searched(alloc: Global, g: &Grammar, u: &str, v: &str, budget: u32) -> Result<Found, Fail>
    requires { IsRising label_cmp g.now.letters.items }
{
    let mut u = Word::of(alloc, &digits(alloc, u)?)?;
    let mut v = Word::of(alloc, &digits(alloc, v)?)?;
    let count = g.rules.len();
    if !is_in_range(g) || !are_letters_below(g.letters.len(), &g.rules) {
        return Err(Fail::new("rules out of range"));
    }
    if !is_below(u.as_slice(), count) || !is_below(v.as_slice(), count) || budget == 0 {
        return Err(Fail::new("words out of range, or no budget"));
    }
    let marks = unnormed(alloc, g)?;
    let marks = marks.as_slice();
    prune(&mut u, marks);
    prune(&mut v, marks);
    Ok(search(alloc, g, marks, &u, &v, budget)?)
}

/// As `equal 0-1 2-3`, `spent 0-1`, or `!Int ?Bool left`.
fn found_text(alloc: Global, found: &Found) -> Result<String, AllocError> {
    match found {
        Found::Equal(pairs) => format!(in alloc; "equal{}", pairs_text(alloc, pairs)?),
        Found::Spent(pairs) => format!(in alloc; "spent{}", pairs_text(alloc, pairs)?),
        Found::Differ(word, side) => {
            format!(in alloc; "{} {}", word_text(alloc, word)?, side_text(*side))
        }
    }
}

// A grammar, two words, a budget, and the answer. `30 / 31` are two loops by `a1`; in `02 12 / 03 13 / 32 / 33` both words
// go to one pair by two letters; `02 14 / 03 15 / 06 / 07 / / / 06 / 07` has two words with the same letters; in
// `010 / 31 / 012` what stands behind X1 is cut; `02 34 / 03 35 / 04 / 05 / 1 /` differs sooner by `a1` than by `!Int`;
// `0 / 1 / 2 3022 / 2 3033` are trees of numbers, twice.
const SEARCHES: &str = "\
¦ ¦  ¦ 1 = equal
0 ¦ 00 ¦ 00 ¦ 1 = equal
30 / 31 ¦ 0 ¦ 00 ¦ 1 = equal
30 / 31 ¦ 01 ¦ 0 ¦ 1 = equal
30 / 31 ¦ 0 ¦ 1 ¦ 1 = equal 0-1
30 / 31 ¦ 10 ¦ 0 ¦ 9 = equal 1-0
02 12 / 03 13 / 32 / 33 ¦ 0 ¦ 1 ¦ 2 = equal 0-1 2-3
02 12 / 03 13 / 32 / 33 ¦ 0 ¦ 1 ¦ 1 = spent 0-1
02 14 / 03 15 / 06 / 07 / / / 06 / 07 ¦ 0 ¦ 1 ¦ 9 = equal 0-1 2-3 4-5 6-7
010 / 31 / 012 ¦ 0 ¦ 2 ¦ 1 = equal 0-2
010 / 31 / 012 ¦ 10 ¦ 12 ¦ 1 = equal
0 / 1 / 2 ¦ 0 ¦ 1 ¦ 1 = !Int left
0 / 1 / 2 ¦ 1 ¦ 0 ¦ 1 = !Int right
0 / 1 / 2 ¦ ¦ 2 ¦ 1 = ?Bool right
1 3 / 1 2 ¦ 0 ¦ 1 ¦ 1 = ?Bool right
1 3 / 1 2 ¦ 1 ¦ 0 ¦ 1 = ?Bool left
0 / 1 / 2 ¦ 01 ¦ 02 ¦ 9 = !Int ?Int left
0 / 1 / 2 ¦ 02 ¦ 01 ¦ 9 = !Int ?Int right
0 / 1 / 2 ¦ 00 ¦ 002 ¦ 9 = !Int !Int ?Bool right
02 13 / 04 15 / 3 / 0 / 2 / ¦ 0 ¦ 1 ¦ 9 = !Int ?Bool right
02 13 / 04 15 / 3 / 0 / 2 / ¦ 1 ¦ 0 ¦ 9 = !Int ?Bool left
02 34 / 03 35 / 04 / 05 / 1 / ¦ 0 ¦ 1 ¦ 9 = a1 ?Int left
0 / 1 / 2 ¦ 0001 ¦ 0002 ¦ 5 = !Int !Int !Int ?Int left
0 / 1 / 2 ¦ 0001 ¦ 0002 ¦ 4 = !Int !Int !Int ?Int left
0 / 1 / 2 ¦ 0001 ¦ 0002 ¦ 3 = spent 0001-0002 001-002 01-02
0 / 1 / 2 ¦ 0001 ¦ 0002 ¦ 1 = spent 0001-0002
02 14 26 / 03 15 27 / / / 3 / / / ¦ 0 ¦ 1 ¦ 4 = ?Int a1 left
02 14 26 / 03 15 27 / / / 3 / / / ¦ 0 ¦ 1 ¦ 3 = ?Int a1 left
02 14 26 / 03 15 27 / / / 3 / / / ¦ 0 ¦ 1 ¦ 2 = spent 0-1 2-3
0 / 1 / 2 3022 / 2 3033 ¦ 21 ¦ 31 ¦ 4 = spent 21-31 0221-0331 221-331 02221-03331";

fn search_row(alloc: Global, given: &str) -> Result<String, Fail> {
    let fields = fields(alloc, given)?;
    let [rows, u, v, budget] = fields.as_slice() else {
        return Err(no_row());
    };
    let found = searched(alloc, &grammar(alloc, rows)?, u, v, one_digit(budget))?;
    Ok(found_text(alloc, &found)?)
}

#[test]
fn words_have_a_least_difference_or_pairs(rt: HostRuntime) -> Result<(), Fail> {
    each_line(rt.alloc(), SEARCHES, search_row)
}
