//! Recursions within one another, and how deep their moves and their agreement go.

use crate::chains::{calls_row, is_kept};
use fst_lts::{agree_to, labels, residual, step, terminated};
use fst_samples::{ty, ty_around};
use fst_tables::{each_line, fields, no_row, word};
use fst_types::{Ty, TyForm, size};
use std::alloc::{AllocError, Global};
use std::test::Fail;

/// A type under so many `rec`s.
fn under_recs(alloc: Global, body: Ty, times: u32) -> Result<Ty, AllocError> {
    let mut t = body;
    for _ in 0..times {
        t = Ty {
            form: TyForm::Rec(Box::new(alloc, t)?),
        };
    }
    Ok(t)
}

/// So many `rec`s around a message and the variable of the outermost of them.
fn outermost(alloc: Global, times: u32) -> Result<Ty, AllocError> {
    let back = Ty {
        form: TyForm::Back(times.saturating_sub(1)),
    };
    let message = ty(alloc, "!")?;
    let body = Ty {
        form: TyForm::Seq(Box::new(alloc, message)?, Box::new(alloc, back)?),
    };
    under_recs(alloc, body, times)
}

fn outermost_row(alloc: Global, given: &str) -> Result<String, Fail> {
    let t = outermost(alloc, given.parse::<u32>()?)?;
    calls_row(alloc, &t)
}

#[test]
fn deep_successors_are_within_the_limit_or_refused(rt: HostRuntime) -> Result<(), Fail> {
    let table = "\
2046 = 2049 true 1S true false 4096 !Int 2051
2047 = 2050 true 1S true false large !Int 2052
4091 = 4094 true 1S true false large !Int 4096
4092 = 4095 true 1S true false large !Int large
4093 = 4096 true 1S true false large !Int large";
    each_line(rt.alloc(), table, outermost_row)
}

/// So many `rec`s around a choice whose branch `B` has the variables of all of them, the innermost first, between these signs,
/// which stand there so many times. What is written out at a variable has all the signs again, and behind them what is written
/// out at the next variable.
fn nested(
    alloc: Global,
    recs: u32,
    front: &str,
    back: &str,
    times: usize,
) -> Result<Ty, AllocError> {
    let mut t = ty(alloc, "d")?;
    for k in (0..recs).rev() {
        let variable = Ty {
            form: TyForm::Back(k),
        };
        t = Ty {
            form: TyForm::Seq(Box::new(alloc, variable)?, Box::new(alloc, t)?),
        };
    }
    let chain = front.repeat(alloc, times)?;
    let front = format!(in alloc; "+d{chain}")?;
    let body = ty_around(alloc, &front, t, &back.repeat(alloc, times)?)?;
    under_recs(alloc, body, recs)
}

// How many `rec`s, the signs, how often they stand there, and a word. How many nodes the type has, and those of what is left
// after the word, where its levels can be opened; whether that is the same as its copy and the dual of its dual, whether
// it is terminated, how many labels it has, and whether it agrees with itself to depth 1. The answers have 3,985 and
// 11,949 levels, 9,529 and 11,430, 9,529; those that aren't given have 13,940, 13,331, 12,264, 12,041 and over 850,000.
const NESTED: &str = "\
1 ¦ ; ¦ s ¦ 1990 ¦ +B = 3988 7970 true false 2 true
1 ¦ ; ¦ s ¦ 1990 ¦ +B +B +B +B +B = 3988 23898 true false 2 memory
1 ¦ ; ¦ s ¦ 1990 ¦ +B +B +B +B +B +B = 3988 memory
4 ¦ ; ¦ s ¦ 1900 ¦ +B = 3817 61038 true false 2 true
4 ¦ ; ¦ s ¦ 1900 ¦ +B +B = 3817 91554 true false 2 memory
4 ¦ ; ¦ s ¦ 1900 ¦ +B +B +B = 3817 memory
4 ¦ - ¦ ¦ 1900 ¦ +B = 3817 61038 true false 1 true
4 ¦ ; ¦ s ¦ 2039 ¦ +B +B = 4095 memory
5 ¦ - ¦ ¦ 2000 ¦ +B = 4020 memory
500 ¦ ; ¦ s ¦ 1200 ¦ +A = 3905 1 true false 1 true
500 ¦ ; ¦ s ¦ 1200 ¦ +B = 3905 memory
500 ¦ - ¦ ¦ 1200 ¦ +B = 3905 memory";

/// Whether the types agree to a depth, where its levels can be opened.
fn agreement(alloc: Global, s: &Ty, r: &Ty, depth: u32) -> &'static str {
    match agree_to(alloc, s, r, depth) {
        Ok(true) => "true",
        Ok(false) => "false",
        Err(AllocError) => "memory",
    }
}

fn left_text(alloc: Global, left: Result<Option<Ty>, AllocError>) -> Result<String, Fail> {
    match left {
        Err(AllocError) => Ok(String::from_str(alloc, "memory")?),
        Ok(None) => Ok(String::from_str(alloc, "none")?),
        Ok(Some(t)) => {
            let is_kept = is_kept(alloc, &t)?;
            let count = labels(alloc, &t)?.len();
            let agrees = agreement(alloc, &t, &t, 1);
            let nodes = size(&t);
            let is_terminated = terminated(&t);
            Ok(format!(in alloc; "{nodes} {is_kept} {is_terminated} {count} {agrees}")?)
        }
    }
}

fn nested_row(alloc: Global, given: &str) -> Result<String, Fail> {
    let fields = fields(alloc, given)?;
    let [recs, front, back, times, labels] = fields.as_slice() else {
        return Err(no_row());
    };
    let (recs, times) = (recs.parse::<u32>()?, times.parse::<usize>()?);
    let t = nested(alloc, recs, front, back, times)?;
    let labels = word(alloc, labels)?;
    let left = left_text(alloc, residual(alloc, &t, &labels))?;
    if let [label] = labels.as_slice() {
        if left != left_text(alloc, step(alloc, &t, label))? {
            return Err(Fail::new("two answers"));
        }
    }
    Ok(format!(in alloc; "{} {left}", size(&t))?)
}

#[test]
fn successors_are_as_deep_as_the_stack_holds(rt: HostRuntime) -> Result<(), Fail> {
    each_line(rt.alloc(), NESTED, nested_row)
}

#[test]
fn agreement_goes_no_deeper_than_the_stack_holds(rt: HostRuntime) -> Result<(), Fail> {
    let alloc = rt.alloc();
    let t = ty(alloc, "r;!0")?;
    for (depth, wanted) in [(10, "true"), (13_000, "memory"), (u32::MAX, "memory")] {
        assert_eq!(rt; agreement(alloc, &t, &t, depth), wanted);
    }
    Ok(())
}
