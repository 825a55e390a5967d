ghost use Rattle.std.specs.Prelude.{◌↔◌, IfOk, IsTrue, map};
ghost use Rattle.fst_derivations.specs.Deriv.{deriv_of};
ghost use Rattle.fst_rules.specs.Levels.{IsDerived};
ghost use Rattle.fst_derivations.specs.Modules.{AreDerived};
ghost use Rattle.fst_derivations.specs.Parts.{IsAnyConversion};

use crate::following::follows;
use crate::levels::Place;
use fst_context::Context;
use fst_derivations::Derivation;
use fst_fits::{is_same, type_at};
use fst_terms::{GlobalEntry, Module};
use std::alloc::{AllocError, Global};

// Whether this is a derivation of the global's equation at its signature.
fn global_holds(
    alloc: Global,
    m: &Module,
    global: &GlobalEntry,
    derivation: &Derivation,
) -> Result<bool, AllocError>
    ensures { IfOk result (λ b. IsTrue b ↔ IsDerived m.now global.now (deriv_of derivation.now)) }
{
    let Some(signature) = type_at(&m.types, global.signature) else {
        return Ok(false);
    };
    if !is_same(derivation.type_of(), signature) {
        return Ok(false);
    }
    let place = Place {
        alloc,
        module: m,
        vars: &global.kinds,
    };
    let mut context = Context::new(alloc);
    let holds = follows(&place, &mut context, &global.body, derivation)?;
    Ok(holds)
}

/// Whether these are derivations of the module's globals, in their order: each node follows the rule of its term's form,
/// where a conversion is taken as equal.
#[tactic(auto, using(crate::proofs::HoldLaws::wrong_count))]
pub fn holds(alloc: Global, m: &Module, d: &[Derivation]) -> Result<bool, AllocError>
    ensures { IfOk result (λ b. IsTrue b ↔ AreDerived m.now IsAnyConversion m.now.globals.items
        (map deriv_of d.now)) }
{
    if m.globals.len() != d.len() {
        return Ok(false);
    }
    for (i, global) in m.globals.iter().enumerate() {
        if !global_holds(alloc, m, global, &d[i])? {
            return Ok(false);
        }
    }
    Ok(true)
}
