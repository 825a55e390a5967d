ghost use Rattle.std.specs.Prelude.{◌≡◌, ◌<◌, ◌≤◌, ℕ, IfOk, IfSome, IsFalse, MatchOption, Some, length};
ghost use Rattle.fst_terms.specs.Around.{has_first};
ghost use Rattle.fst_terms.specs.CoreTree.{core_height};
ghost use Rattle.fst_derivations.specs.Deriv.{deriv_of, parts_of};
ghost use Rattle.fst_rules.specs.Levels.{AreLower, Descends, rest_walk, surroundings_at};
ghost use Rattle.fst_derivations.specs.Rules.{Surroundings};
ghost use Rattle.fst_rules.specs.Walks.{after, nowhere, row_walk, walk_of};

use crate::peeling::{Row, peel, two};
use fst_derivations::Derivation;
use fst_fits::{apply_fits, operate_fits};
use fst_terms::{Form, Module, Term};
use fst_types::Kind;
use std::alloc::{AllocError, Global};

/// Where derivations are looked at: the module, and the kinds of the variables of an equation's signature.
#[derive(Clone, Copy)]
pub(crate) struct Place<'a> {
    pub(crate) alloc: Global,
    pub(crate) module: &'a Module,
    pub(crate) vars: &'a [Kind],
}

/// The second part of a sign or of an application, and its derivation.
#[derive(Clone, Copy)]
pub(crate) struct Level<'a> {
    pub(crate) term: &'a Term,
    pub(crate) derivation: &'a Derivation,
}

/// A term and its derivation from the inside: the first part that has none itself, its row, and what stands around it, the
/// innermost last.
#[derive(Drop)]
pub(crate) struct Levels<'a> {
    pub(crate) head: &'a Term,
    pub(crate) row: Row<'a>,
    pub(crate) levels: Vec<Level<'a>>,
}

/// What stands below a row.
#[derive(Clone, Copy)]
pub(crate) enum Down<'a> {
    /// The term has no first part.
    Head,
    /// The row isn't one of the term.
    Wrong,
    /// The first part with its derivation, and the second.
    Step(&'a Term, &'a Derivation, Level<'a>),
}

/// One level down a term and its row.
pub(crate) fn step_down<'a>(place: &Place<'_>, term: &'a Term, row: Row<'a>) -> Down<'a>
    ensures { Descends (surroundings_at place.now) term.now row.entry.ty.now (parts_of
        row.entry.parts.now) result }
{
    match &term.form {
        Form::Operate(op, first, second) => {
            let Some((d, h)) = two(row.parts) else {
                return Down::Wrong;
            };
            if !operate_fits(*op, row.ty, d.type_of(), h.type_of()) {
                return Down::Wrong;
            }
            Down::Step(
                first,
                d,
                Level {
                    term: second,
                    derivation: h,
                },
            )
        }
        Form::Apply(first, second) => {
            let Some((d, h)) = two(row.parts) else {
                return Down::Wrong;
            };
            if !apply_fits(row.ty, d.type_of(), h.type_of()) {
                return Down::Wrong;
            }
            Down::Step(
                first,
                d,
                Level {
                    term: second,
                    derivation: h,
                },
            )
        }
        _ => Down::Head,
    }
}

/// The levels of a term and of a tree, or none where the tree isn't a derivation of the term.
pub(crate) fn levels_of<'a>(
    place: &Place<'_>,
    term: &'a Term,
    derivation: &'a Derivation,
) -> Result<Option<Levels<'a>>, AllocError>
    ensures walk { IfOk result (λ o. MatchOption o
        (walk_of (surroundings_at place.now) term.now (deriv_of derivation.now) ≡ nowhere)
        (λ l. walk_of (surroundings_at place.now) term.now (deriv_of derivation.now) ≡ after
        (row_walk (surroundings_at place.now) l.head.now l.row.ty.now (parts_of l.row.parts.now))
        (rest_walk (surroundings_at place.now) l.levels.items))) }
    ensures head { IfOk result (λ o. IfSome o (λ l. IsFalse (has_first l.head.now))) }
    ensures low { IfOk result (λ o. IfSome o (λ l. core_height l.head.now ≤ core_height
        term.now)) }
    ensures lower { IfOk result (λ o. IfSome o (λ l. AreLower (core_height term.now)
        l.levels.items)) }
{
    let mut levels = Vec::new(place.alloc);
    let mut head = term;
    let mut below = derivation;
    loop {
        let Some(row) = peel(place.alloc, place.vars, below)? else {
            return Ok(None);
        };
        match step_down(place, head, row) {
            Down::Head => return Ok(Some(Levels { head, row, levels })),
            Down::Wrong => return Ok(None),
            Down::Step(first, part, level) => {
                levels.push(level)?;
                head = first;
                below = part;
            }
        }
    }
}

/// The innermost level, which is taken off.
pub(crate) fn pop_level<'a>(levels: &mut Vec<Level<'a>>) -> Option<Level<'a>>
    ensures less { IfSome result (λ l. length levels.new.items < length levels.old.items) }
    ensures low { (n : ℕ) → AreLower n levels.old.items → IfSome result (λ l. core_height
        l.term.now < n) }
    ensures lower { (n : ℕ) → AreLower n levels.old.items → AreLower n levels.new.items }
    ensures walk { (m : Surroundings) → MatchOption result (rest_walk m levels.old.items ≡ Some)
        (λ l. rest_walk m levels.old.items ≡ after (walk_of m l.term.now (deriv_of
        l.derivation.now)) (rest_walk m levels.new.items)) }
{
    levels.pop()
}
