//! How types move, against what is wanted.

use fst_lts::{StepFault, residual, step, step_within_limit};
use fst_types::{Label, Ty, same};
use std::alloc::{AllocError, Global};

fn against(found: &Option<Ty>, wanted: &Ty) -> &'static str {
    match found {
        None => "none",
        Some(found) => {
            if same(found, wanted) {
                "this"
            } else {
                "another"
            }
        }
    }
}

/// The type after a label within the limit on nodes, against this.
fn stepped_within_limit(
    alloc: Global,
    t: &Ty,
    label: &Label,
    wanted: &Ty,
) -> Result<&'static str, AllocError> {
    match step_within_limit(alloc, t, label) {
        Ok(found) => Ok(against(&found, wanted)),
        Err(StepFault::TooLarge) => Ok("too large"),
        Err(StepFault::Memory) => Err(AllocError),
    }
}

/// What is left of a type behind a word, against this; where the word is one label, a step has to say the same.
pub fn left_behind(
    alloc: Global,
    t: &Ty,
    word: &[Label],
    wanted: &Ty,
) -> Result<&'static str, AllocError> {
    let answer = against(&residual(alloc, t, word)?, wanted);
    match word {
        [label] => {
            let stepped = against(&step(alloc, t, label)?, wanted);
            let limited = stepped_within_limit(alloc, t, label, wanted)?;
            Ok(if stepped == answer && limited == answer {
                answer
            } else {
                "two answers"
            })
        }
        _ => Ok(answer),
    }
}
