// The globals of a module, each checked by itself.

ghost use Rattle.std.specs.Prelude.{◌≡◌, ◌↔◌, ◌∷◌, ◌++◌, [], ◌<◌, ◌≤◌, ℕ, false, List, IfErr, IfOk, IsTrue, MatchOption, OnOk, Some, codes, length, map, slice_get};
ghost use Rattle.std.specs.Str.{bytes_eq};
ghost use Rattle.fst_terms.specs.declared.global.GlobalEntry.{GlobalEntry as GlobalParts};
ghost use Rattle.fst_derivations.specs.Deriv.{deriv_of};
ghost use Rattle.fst_derivations.specs.Modules.{ArePlainlyDerived, AreTypesFormed, HasMain, IsMain};
ghost use Rattle.fst_typing.specs.Checked.{checking_over, IsEquationDerived, IsFoundOf, IsGlobalAccepted, IsNamedMain, ShowsGlobal, ShowsMain};
ghost use Rattle.fst_premises.specs.Shown.{IsShown};
ghost use Rattle.fst_written.specs.First.{IsFirst};

use crate::equations::infer_equation;
use fst_context::Context;
use fst_derivations::Derivation;
use fst_premises::{CheckFault, Scene, type_at};
use fst_terms::{GlobalEntry, Module};
use fst_types::copy;
use fst_written::is_printable;
use std::alloc::{AllocError, Global};

/// The refusal of a global, and the byte at which its equation begins.
#[derive(Drop)]
pub(crate) struct Refused {
    at: u32,
    fault: CheckFault,
}

/// What is found of some globals: their derivations, or the refusal of the one whose equation begins first of those that are
/// refused.
#[derive(Drop)]
pub(crate) struct Found {
    derivations: Vec<Derivation>,
    refused: Option<Refused>,
}

/// Whether the global is named main.
fn is_main(global: &GlobalEntry) -> bool
    ensures { result ≡ bytes_eq global.now.name (codes "main") }
{
    global.name.as_slice() == b"main".as_slice()
}

/// That main has no type variables, and a type whose values can be printed.
fn check_main(alloc: Global, m: &Module, global: &GlobalEntry) -> Result<(), CheckFault>
    requires { global.now.signature < length m.now.types.items }
    ensures main { OnOk result (IsMain m.now.types.items global.now) }
    ensures refused { IfErr result (λ f. IsShown f (ShowsMain m.now global.now f)) }
{
    if !global.kinds.is_empty() {
        let count = global.kinds.len() as u64;
        return Err(CheckFault::TypeArguments(global.signature_at, count, 0));
    }
    let signature = &m.types[global.signature as usize];
    if !is_printable(signature) {
        let t = copy(alloc, signature)?;
        return Err(CheckFault::NotPrintable(global.signature_at, t));
    }
    Ok(())
}

/// That the global, if it is named main, has a type that main may have.
fn check_name(alloc: Global, m: &Module, global: &GlobalEntry) -> Result<(), CheckFault>
    requires { global.now.signature < length m.now.types.items }
    ensures main { OnOk result (IsNamedMain global.now → IsMain m.now.types.items global.now) }
    ensures refused { IfErr result (λ f. IsShown f
        (IsNamedMain global.now × ShowsMain m.now global.now f)) }
{
    if is_main(global) {
        check_main(alloc, m, global)
    } else {
        Ok(())
    }
}

/// The plain derivation of a global's equation.
fn check_global(
    alloc: Global,
    m: &Module,
    budget: u32,
    global: &GlobalEntry,
) -> Result<Derivation, CheckFault>
    requires budget { 1 ≤ budget }
    requires types { AreTypesFormed m.now }
    requires there { (k : ℕ) × (slice_get m.now.globals.items k ≡ Some global.now) }
    ensures main { OnOk result (IsNamedMain global.now → IsMain m.now.types.items global.now) }
    ensures derived { IfOk result (λ d. IsEquationDerived m.now budget global.now (deriv_of d)) }
    ensures refused { IfErr result (λ f. IsShown f (ShowsGlobal m.now budget global.now f)) }
{
    check_name(alloc, m, global)?;
    let scene = Scene {
        module: m,
        vars: &global.kinds,
        budget,
    };
    let mut context = Context::new(alloc);
    let signature = type_at(scene, global.signature);
    infer_equation(alloc, scene, &mut context, signature, &global.body)
}

/// Whether a refusal is known of an equation that begins no later than the global's.
fn is_behind(refused: &Option<Refused>, global: &GlobalEntry) -> bool
    ensures { MatchOption refused.now (result ≡ false)
        (λ r. IsTrue result ↔ (r.at ≤ global.now.at)) }
{
    match refused {
        Some(first) => first.at <= global.at,
        None => false,
    }
}

/// What is found with one more derivation.
fn with_derivation(found: Found, derivation: Derivation) -> Result<Found, AllocError>
    ensures refused { IfOk result (λ o. o.refused ≡ found.refused) }
    ensures derivations { IfOk result (λ o.
        map deriv_of o.derivations.items ≡ map deriv_of found.derivations.items ++ deriv_of
        derivation ∷ []) }
{
    let Found {
        mut derivations,
        refused,
    } = found;
    derivations.push(derivation)?;
    Ok(Found {
        derivations,
        refused,
    })
}

/// What is found with a refusal of the global whose equation begins at this byte.
fn with_refusal(found: Found, at: u32, fault: CheckFault) -> Found
    ensures refused { result.refused ≡ Some (record { at = at; fault = fault }) }
    ensures derivations { result.derivations ≡ found.derivations }
{
    Found {
        derivations: found.derivations,
        refused: Some(Refused { at, fault }),
    }
}

/// What is found with one more global.
fn next_found(
    alloc: Global,
    m: &Module,
    budget: u32,
    global: &GlobalEntry,
    found: Found,
) -> Result<Found, AllocError>
    requires budget { 1 ≤ budget }
    requires types { AreTypesFormed m.now }
    requires there { (k : ℕ) × (slice_get m.now.globals.items k ≡ Some global.now) }
    ensures { IfOk result (λ o. (gs : List GlobalParts) →
        IsFoundOf m.now budget gs (map deriv_of found.derivations.items) found.refused →
        IsFoundOf m.now budget (gs ++ global.now ∷ [])
        (map deriv_of o.derivations.items) o.refused) }
{
    if is_behind(&found.refused, global) {
        return Ok(found);
    }
    match check_global(alloc, m, budget, global) {
        Ok(derivation) => with_derivation(found, derivation),
        Err(fault) => Ok(with_refusal(found, global.at, fault)),
    }
}

/// The plain derivations of all equations, in the order of the globals.
pub(crate) fn check_globals(
    alloc: Global,
    m: &Module,
    budget: u32,
) -> Result<Vec<Derivation>, CheckFault>
    requires budget { 1 ≤ budget }
    requires types { AreTypesFormed m.now }
    ensures main { OnOk result (HasMain m.now.types.items m.now.globals.items) }
    ensures derived { IfOk result (λ ds. ArePlainlyDerived m.now
        (checking_over m.now budget) m.now.globals.items (map deriv_of ds.items)) }
    ensures refused { IfErr result (λ f. IsShown f (
        (g : GlobalParts) × IsFirst (λ (h : GlobalParts). h.at)
        (IsGlobalAccepted m.now budget) m.now.globals.items g × ShowsGlobal m.now budget g f)) }
{
    let mut found = Found {
        derivations: Vec::new(alloc),
        refused: None,
    };
    for global in &m.globals {
        found = next_found(alloc, m, budget, global, found)?;
    }
    let Found {
        derivations,
        refused,
    } = found;
    match refused {
        None => Ok(derivations),
        Some(first) => Err(first.fault),
    }
}
