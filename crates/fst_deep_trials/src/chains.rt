//! Types of as many nodes as are allowed, in one chain: these take most of the stack, and `rt try` has too little of it.

use fst_grammar::TranslateFault;
use fst_kinds::contractive;
use fst_lts::{StepFault, dual, labels, residual, step, step_within_limit, terminated};
use fst_print::word_text;
use fst_samples::{
    asked, compared, comparison_text, kind, left_behind, text_of, translated, ty, unfolded,
    unfolded_within_limit, verdict_text,
};
use fst_tables::{each_line, fields, no_row};
use fst_types::{
    Label, Scope, Ty, UnfoldFault, copy, instance_size, instantiate, same, size, substitute,
};
use std::alloc::{AllocError, Global};
use std::test::Fail;

/// The type of a code between signs that stand so many times in front of it and behind it.
fn chained(
    alloc: Global,
    front: &str,
    back: &str,
    times: usize,
    middle: &str,
) -> Result<Ty, AllocError> {
    let front = front.repeat(alloc, times)?;
    let back = back.repeat(alloc, times)?;
    let code = format!(in alloc; "{front}{middle}{back}")?;
    ty(alloc, &code)
}

// Signs in front of `!Int` and behind it, and how often; how often they stand there after a move, and the code between them
// then; the signs in front of the dual. How many nodes the type has, whether its copy is the same, how many nodes its
// unfolding has, its kind, the label by which it moves, what is left then, whether the dual is this one, and the rows of the
// grammar.
const CHAINS: &str = "\
; ¦ s ¦ 2047 ¦ 2047 ¦ s ¦ ; = 4095 true 4095 1S !Int this true 1
;s ¦ ¦ 2047 ¦ 0 ¦ s ¦ ;s = 4095 true 4095 1S !Int this true 1
r ¦ ¦ 4095 ¦ 0 ¦ s ¦ r = 4096 true 4095 1S !Int this true 4096
- ¦ ¦ 2047 ¦ 2046 ¦ ! ¦ _ = 4095 true 4095 1S +B this true 2048
_ ¦ ¦ 2047 ¦ 2046 ¦ ! ¦ - = 4095 true 4095 1S &B this true 2048";

/// The label by which a type moves, and what is left then, against this.
fn move_row(alloc: Global, t: &Ty, next: &Ty) -> Result<String, Fail> {
    let labels = labels(alloc, t)?;
    let by = word_text(alloc, &labels)?;
    let answer = left_behind(alloc, t, &labels, next)?;
    Ok(format!(in alloc; "{by} {answer}")?)
}

/// How many rows a translation has, or that the types are too large.
fn rows(alloc: Global, s: &Ty, r: &Ty) -> Result<String, Fail> {
    match translated(alloc, s, r) {
        Ok((grammar, _, _)) => Ok(format!(in alloc; "{}", grammar.rules.len())?),
        Err(TranslateFault::TooLarge) => Ok(String::from_str(alloc, "large")?),
        Err(TranslateFault::Memory) => Err(Fail::new("no memory, or no session types")),
    }
}

fn shape(alloc: Global, t: &Ty) -> Result<String, Fail> {
    let is_copied = same(t, &copy(alloc, t)?);
    let next = size(&unfolded(alloc, t)?);
    let kind = kind(alloc, t, &[])?;
    Ok(format!(in alloc; "{} {is_copied} {next} {kind}", size(t))?)
}

fn chain_row(alloc: Global, given: &str) -> Result<String, Fail> {
    let fields = fields(alloc, given)?;
    let [front, back, times, less, end, duals] = fields.as_slice() else {
        return Err(no_row());
    };
    let times = times.parse::<usize>()?;
    let less = less.parse::<usize>()?;
    let t = chained(alloc, front, back, times, "!")?;
    let shape = shape(alloc, &t)?;
    let next = chained(alloc, front, back, less, end)?;
    let moves = move_row(alloc, &t, &next)?;
    let is_dual = same(&dual(alloc, &t)?, &chained(alloc, duals, back, times, "@")?);
    let rows = rows(alloc, &t, &t)?;
    Ok(format!(in alloc; "{shape} {moves} {is_dual} {rows}")?)
}

#[test]
fn deep_types_fit_the_stack(rt: HostRuntime) -> Result<(), Fail> {
    each_line(rt.alloc(), CHAINS, chain_row)
}

// Types with variables, whose successors and unfoldings may be far larger: the signs in front and behind, how often they stand
// there, and the code between them. How many nodes the type has, whether it is the same as its copy and as the dual of its dual;
// its kind, and whether it is contractive and terminated; how many nodes its unfolding has; each label by which it moves,
// and how many nodes are left then.
const WRITTEN_OUT: &str = "\
r ¦ ¦ 4070 ¦ -;0;1;2;3;4;56 = 4085 true 1S true false 4084 +B 2560
r ¦ ¦ 4000 ¦ +s0 = 4005 true 1S true false 4004 +A 1 +B 6
r ¦ ¦ 4000 ¦ +s;09 = 4007 true 1S true false 4006 +A 1 +B 42
r ¦ ¦ 10 ¦ +s;0;1;2;3;4;5;6;7;89 = 33 true 1S true false 64 +A 1 +B large
r ¦ ¦ 20 ¦ +s;0;1;2;3;4;5;6;7;89 = 43 true 1S true false 42 +A 1 +B large
r- ¦ ¦ 1360 ¦ ;s0 = 4083 true 1S true false 4082 +B 4080
r-;s ¦ ¦ 800 ¦ ;!0 = 4003 true 1S true false 4002 +B 4000
;s ¦ ¦ 1020 ¦ r+s0 = 2046 true 1S true false 2046 +A 1 +B 6
; ¦ s ¦ 1020 ¦ r+s0 = 2046 true 1S true false 2046 +A 2041 +B 2046
r; ¦ s ¦ 1360 ¦ +s9 = 4085 true 1S true false 4084 +A 2721 +B 2755";

fn count_text(alloc: Global, answer: &Option<Ty>) -> Result<String, AllocError> {
    match answer {
        None => String::from_str(alloc, "none"),
        Some(t) => format!(in alloc; "{}", size(t)),
    }
}

/// How many nodes the type after a label has, where it is within the limit and `step` and `residual` give the same.
fn step_count(alloc: Global, t: &Ty, label: &Label) -> Result<String, Fail> {
    let next = match step_within_limit(alloc, t, label) {
        Ok(next) => next,
        Err(StepFault::TooLarge) => return Ok(String::from_str(alloc, "large")?),
        Err(StepFault::Memory) => return Err(Fail::new("no memory")),
    };
    let by = label.copy(alloc)?;
    let other = residual(alloc, t, &[by])?;
    match (&next, &step(alloc, t, label)?, &other) {
        (None, None, None) => {}
        (Some(x), Some(y), Some(z)) if same(x, y) && same(x, z) => {}
        _ => return Err(Fail::new("two answers")),
    }
    Ok(count_text(alloc, &next)?)
}

/// Each label by which a type moves, and how many nodes are left then.
fn step_counts(alloc: Global, t: &Ty) -> Result<String, Fail> {
    let mut text = String::new(alloc);
    for label in &labels(alloc, t)? {
        let count = step_count(alloc, t, label)?;
        let by = label.copy(alloc)?;
        let by = word_text(alloc, &[by])?;
        text.push_str(" ")?;
        text.push_str(&by)?;
        text.push_str(" ")?;
        text.push_str(&count)?;
    }
    Ok(text)
}

fn unfolding_count(alloc: Global, t: &Ty) -> Result<String, Fail> {
    match unfolded_within_limit(alloc, t) {
        Ok(next) => Ok(format!(in alloc; "{}", size(&next))?),
        Err(UnfoldFault::TooLarge) => Ok(String::from_str(alloc, "large")?),
        Err(UnfoldFault::Memory) => Err(Fail::new("no memory")),
    }
}

/// Whether a type is the same as its copy, as the dual of its dual, and as itself with nothing put into it.
pub(crate) fn is_kept(alloc: Global, t: &Ty) -> Result<bool, AllocError> {
    Ok(
        same(t, &copy(alloc, t)?)
            && same(t, &dual(alloc, &dual(alloc, t)?)?)
            && same(t, &substitute(alloc, &Scope::Top, t)?),
    )
}

pub(crate) fn calls_row(alloc: Global, t: &Ty) -> Result<String, Fail> {
    let is_kept = is_kept(alloc, t)?;
    let kind = kind(alloc, t, &[])?;
    let (is_contractive, is_terminated) = (contractive(t), terminated(t));
    let unfolding = unfolding_count(alloc, t)?;
    let steps = step_counts(alloc, t)?;
    let nodes = size(t);
    Ok(format!(in alloc;
        "{nodes} {is_kept} {kind} {is_contractive} {is_terminated} {unfolding}{steps}"
    )?)
}

fn written_out_row(alloc: Global, given: &str) -> Result<String, Fail> {
    let fields = fields(alloc, given)?;
    let [front, back, times, middle] = fields.as_slice() else {
        return Err(no_row());
    };
    let t = chained(alloc, front, back, times.parse::<usize>()?, middle)?;
    calls_row(alloc, &t)
}

#[test]
fn deep_types_with_variables_fit_the_stack(rt: HostRuntime) -> Result<(), Fail> {
    each_line(rt.alloc(), WRITTEN_OUT, written_out_row)
}

// Signs in front of a variable and behind it, and how often; as often they stand around what is put for the variable. How
// many nodes the instance has, whether that was foretold, and whether the signs stand there twice as often.
const INSTANCES: &str = "\
; ¦ s ¦ 2047 = 8189 true true
;s ¦ ¦ 2047 = 8189 true true
r ¦ ¦ 4095 = 8191 true true
- ¦ ¦ 2047 = 8189 true true
_ ¦ ¦ 2047 = 8189 true true";

fn instance_row(alloc: Global, given: &str) -> Result<String, Fail> {
    let fields = fields(alloc, given)?;
    let [front, back, times] = fields.as_slice() else {
        return Err(no_row());
    };
    let times = times.parse::<usize>()?;
    let t = chained(alloc, front, back, times, "a")?;
    let args = [chained(alloc, front, back, times, "!")?];
    let instance = instantiate(alloc, &t, &args)?;
    let nodes = size(&instance);
    let is_foretold = instance_size(&t, &args) == nodes;
    let wanted = chained(alloc, front, back, times.saturating_mul(2), "!")?;
    let is_wanted = same(&instance, &wanted);
    Ok(format!(in alloc; "{nodes} {is_foretold} {is_wanted}")?)
}

#[test]
fn deep_instances_fit_the_stack(rt: HostRuntime) -> Result<(), Fail> {
    each_line(rt.alloc(), INSTANCES, instance_row)
}

// Signs in front of one part and of another and behind them, and how often; the two parts; how the two types compare. Those of the
// last two rows have 4,097 nodes each.
const COMPARISONS: &str = "\
,i ¦ ¦ 2047 ¦ ! ¦ ^ = word !Int left
, ¦ i ¦ 2047 ¦ ! ¦ ^ = word !Int left
>i ¦ ¦ 2047 ¦ i ¦ h = shape
o ¦ i ¦ 2047 ¦ ! ¦ ;s! = yes
- ¦ ¦ 2048 ¦ ! ¦ ! = yes
- ¦ ¦ 2048 ¦ ! ¦ ^ = too large";

fn comparison_row(alloc: Global, given: &str) -> Result<String, Fail> {
    let fields = fields(alloc, given)?;
    let [front, back, times, left, right] = fields.as_slice() else {
        return Err(no_row());
    };
    let times = times.parse::<usize>()?;
    let t = chained(alloc, front, back, times, left)?;
    let u = chained(alloc, front, back, times, right)?;
    Ok(comparison_text(alloc, &compared(alloc, &t, &u, 1))?)
}

#[test]
fn deep_comparisons_fit_the_stack(rt: HostRuntime) -> Result<(), Fail> {
    each_line(rt.alloc(), COMPARISONS, comparison_row)
}

fn large_row(alloc: Global, given: &str) -> Result<String, Fail> {
    let small = ty(alloc, "!")?;
    let large = chained(alloc, ";s", "", given.parse::<usize>()?, "!")?;
    let left = rows(alloc, &large, &small)?;
    let right = rows(alloc, &small, &large)?;
    let verdict = verdict_text(alloc, &asked(alloc, &large, &small, 1))?;
    let other = verdict_text(alloc, &asked(alloc, &small, &large, 1))?;
    Ok(format!(in alloc; "{left} {right} {verdict} {other}")?)
}

#[test]
fn larger_types_are_refused(rt: HostRuntime) -> Result<(), Fail> {
    let table = "\
2047 = 1 1 yes by basis yes by basis
2048 = large large too large too large";
    each_line(rt.alloc(), table, large_row)
}

#[test]
fn deep_types_have_texts(rt: HostRuntime) -> Result<(), Fail> {
    let alloc = rt.alloc();
    let t = chained(alloc, "_", "", 4095, "s")?;
    let front = "&{B: ".repeat(alloc, 4095)?;
    let back = "}".repeat(alloc, 4095)?;
    let wanted = format!(in alloc; "{front}Skip{back}")?;
    assert_eq!(rt; text_of(alloc, &t)?, wanted);
    Ok(())
}
