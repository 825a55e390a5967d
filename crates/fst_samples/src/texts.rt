//! The texts of types.

ghost use Rattle.std.specs.Prelude.{IsTrue};
ghost use Rattle.fst_types.specs.ModelView.{branches_of};
ghost use Rattle.fst_types.specs.Named.{AllNamedWithin, IsNamedWithin};

use crate::building::sound;
use fst_print::type_text;
use fst_types::{Branch, Family, Name, Ty, TyForm};
use std::alloc::Global;
use std::test::Fail;

// Whether each data type is one of the first so many.
#[cycle(named)]
fn named(t: &Ty, families: usize) -> bool
    ensures { IsTrue result → IsNamedWithin families t.now }
{
    match &t.form {
        TyForm::Select(branches) => all_named(branches, families),
        TyForm::Offer(branches) => all_named(branches, families),
        TyForm::Seq(first, second) => named(first, families) && named(second, families),
        TyForm::Rec(body) => named(body, families),
        TyForm::Arrow(_, from, to) => named(from, families) && named(to, families),
        TyForm::Pair(first, second) => named(first, families) && named(second, families),
        TyForm::Named(k) => (*k as usize) < families,
        _ => true,
    }
}

#[cycle(named)]
#[tactic(auto, using(fst_types::proofs::Laws::height_at))]
fn all_named(branches: &[Branch], families: usize) -> bool
    ensures { IsTrue result → AllNamedWithin families (branches_of branches.now) }
{
    for branch in branches {
        if !named(&branch.body, families) {
            return false;
        }
    }
    true
}

/// The text of a type whose data types are `Bit` and `List'`.
pub fn text_of(alloc: Global, t: &Ty) -> Result<String, Fail> {
    let mut families = Vec::new(alloc);
    for name in ["Bit", "List'"] {
        let name = Name::of(alloc, name.as_bytes())?;
        families.push(Family {
            name,
            makers: Vec::new(alloc),
        })?;
    }
    if !sound(t, 0) || !named(t, families.len()) {
        return Err(Fail::new("a variable or a data type that nothing gives"));
    }
    Ok(type_text(alloc, t, &families)?)
}
