ghost use Rattle.std.specs.Prelude.{◌≡◌, ◌↔◌, ◌<◌, ◌≤◌, IfOk, IfSome, IsTrue, MatchOption, length};
ghost use Rattle.fst_terms.specs.InRange.{AreNumbersBelow};
ghost use Rattle.fst_derivations.specs.Modules.{AreFamiliesPrintable, IsPrintable, family_types};
ghost use Rattle.fst_written.specs.Printable.{IsFirstUnprintable, IsLeastField, printable};
ghost use Rattle.fst_written.specs.Readings.{begins_at};

use crate::numbers::field_types;
use fst_terms::Module;
use fst_types::{Ty, TyForm};
use std::alloc::{AllocError, Global};

fn passes(t: &Ty) -> bool
    ensures { result ≡ printable t.now }
{
    match &t.form {
        TyForm::Skip => false,
        TyForm::Send(_) => false,
        TyForm::Receive(_) => false,
        TyForm::Close => false,
        TyForm::Wait => false,
        TyForm::Select(_) => false,
        TyForm::Offer(_) => false,
        TyForm::Seq(_, _) => false,
        TyForm::Rec(_) => false,
        TyForm::Back(_) => false,
        TyForm::Var(_) => false,
        TyForm::Plain(_) => true,
        TyForm::Arrow(_, _, _) => false,
        TyForm::Pair(first, second) => passes(first) && passes(second),
        TyForm::Named(_) => true,
    }
}

/// Whether a value of the type can be printed: of a base type, of a data type, or a pair of such values.
#[tactic(auto, using(crate::proofs::PrintableLaws::printable_is))]
pub fn is_printable(t: &Ty) -> bool
    ensures { IsTrue result ↔ IsPrintable t.now }
{
    passes(t)
}

// Of two types the one that begins first, and the first one where both begin at one byte.
fn earlier(m: &Module, found: Option<u32>, next: u32) -> u32
    requires found { IfSome found (λ k. k < length m.now.types.items) }
    requires next { next < length m.now.types.items }
    ensures { MatchOption found (result ≡ next) (λ k.
        (begins_at m.now k ≤ begins_at m.now next → result ≡ k) ×
        (begins_at m.now next < begins_at m.now k → result ≡ next)) }
{
    match found {
        None => next,
        Some(k) => {
            if m.places[k as usize] <= m.places[next as usize] {
                k
            } else {
                next
            }
        }
    }
}

fn first_field(m: &Module, numbers: &[u32]) -> Option<u32>
    requires { AreNumbersBelow (length m.now.types.items) numbers.now }
    ensures { IsLeastField m.now numbers.now result }
{
    let mut found = None;
    for number in numbers {
        if !is_printable(&m.types[*number as usize]) {
            found = Some(earlier(m, found, *number));
        }
    }
    found
}

/// The number of the first type of a field, in order of text, whose values can't be printed, if there is one.
pub fn unprintable_field(alloc: Global, m: &Module) -> Result<Option<u32>, AllocError>
    ensures printable { IfOk result (λ found. MatchOption found
        (AreFamiliesPrintable m.now.types.items m.now.families.items)
        (IsFirstUnprintable m.now (family_types m.now.families.items))) }
    ensures refused { IfOk result (λ found. IfSome found (λ _.
        AreFamiliesPrintable m.now.types.items m.now.families.items → ⊥)) }
{
    let numbers = field_types(alloc, &m.families)?;
    Ok(first_field(m, &numbers))
}
