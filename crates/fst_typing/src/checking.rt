ghost use Rattle.std.specs.Prelude.{◌≡◌, ◌≤◌, ℕ, List, IfErr, IfOk, OnOk, length, map};
ghost use Rattle.fst_derivations.specs.Deriv.{Deriv, deriv_of};
ghost use Rattle.fst_derivations.specs.Modules.{AreFamiliesPrintable, AreTypesFormed, HasDerivations};
ghost use Rattle.fst_premises.specs.declared.fault.CheckFault.TheVariants.{Memory};
ghost use Rattle.fst_typing.specs.Checked.{HasDerivationsWithin, IsAccepted, IsRefusal};
ghost use Rattle.fst_typing.specs.Laws.{IsCause};
ghost use Rattle.fst_typing.specs.Views.{written_fault};
ghost use Rattle.fst_typing.specs.Texts.{HaveTexts};
ghost use Rattle.fst_premises.specs.Shown.{IsShown};

use crate::globals::check_globals;
use crate::law::{complete_law, refusal_law};
use fst_derivations::Derivation;
use fst_premises::CheckFault;
use fst_terms::Module;
use fst_types::copy;
use fst_written::{WrittenFault, check_kinds, unprintable_field};
use std::alloc::Global;

/// The derivations of an accepted module.
#[derive(Drop)]
pub struct Accepted {
    /// One for each global, in their order.
    pub derivations: Vec<Derivation>,
}

/// The refusal with a fault of written types.
fn refusal_of(fault: WrittenFault) -> CheckFault
    ensures { result ≡ written_fault fault }
{
    match fault {
        WrittenFault::Kinds(at, fault) => CheckFault::Kinds(at, fault),
        WrittenFault::Memory => CheckFault::Memory,
    }
}

/// That the written types of a module are well formed and its fields can be printed.
fn check_written(alloc: Global, m: &Module) -> Result<(), CheckFault>
    ensures types { OnOk result (AreTypesFormed m.now) }
    ensures fields { OnOk result (AreFamiliesPrintable m.now.types.items m.now.families.items) }
    ensures refused { IfErr result (λ f. IsShown f ((budget : ℕ) → IsRefusal m.now budget f)) }
{
    if let Err(fault) = check_kinds(alloc, m) {
        return Err(refusal_of(fault));
    }
    match unprintable_field(alloc, m)? {
        None => Ok(()),
        Some(k) => {
            let t = copy(alloc, &m.types[k as usize])?;
            Err(CheckFault::NotPrintable(m.places[k as usize], t))
        }
    }
}

/// Whether a module is well typed: its plain derivations, or the first cause for which it is refused. A question between two
/// types has so many pairs as the budget says. A module that has derivations is refused only for a question that stays
/// undecided, for a size, or for want of memory.
pub fn check(alloc: Global, m: &Module, budget: u32) -> Result<Accepted, CheckFault>
    requires { 1 ≤ budget }
    ensures accepted { IfOk result (λ a. IsAccepted m.now budget
        (map deriv_of a.derivations.items)) }
    ensures derived { IfOk result (λ a. HasDerivations m.now (map deriv_of a.derivations.items)) }
    ensures refused { IfErr result (λ f. IsShown f (IsRefusal m.now budget f)) }
    ensures texts { IfErr result (HaveTexts (length m.now.families.items)) }
    ensures groundless { IfErr result (λ f. IsCause f →
        (ds : List Deriv) → HasDerivations m.now ds → ⊥) }
    ensures complete { IfErr result (λ f. (ds : List Deriv) → HasDerivationsWithin m.now budget ds →
        f ≡ Memory) }
{
    refusal_law();
    complete_law();
    check_written(alloc, m)?;
    let derivations = check_globals(alloc, m, budget)?;
    Ok(Accepted { derivations })
}
