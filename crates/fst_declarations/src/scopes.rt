ghost use Rattle.std.specs.Prelude.{◌≡◌, List, Option, IfOk, length, min, option_map};
ghost use Rattle.fst_types.specs.Tree.{Tree};
ghost use Rattle.fst_terms.specs.Naming.{type_of};
ghost use Rattle.fst_scopes.specs.Counted.{AreMeasures};
ghost use Rattle.fst_scopes.specs.Measures.{arrows, ceiling};
ghost use Rattle.fst_scopes.specs.Scopes.{declared_in, standing_in};
ghost use Rattle.fst_scopes.specs.TypeNames.{scope_with};
ghost use Rattle.fst_declarations.specs.SignatureScopes.{AreScopes, IsScopeOf};

use crate::entries::{SignatureEntry, Signatures};
use fst_scopes::{Measure, NameTable, Names, TypeNames, measure_of, variables_of};
use fst_types::Written;
use std::alloc::{AllocError, Global};

/// What is kept of a signature for its equation: its variables, and how many arrows stand one behind the other in its type,
/// counted to 18446744073709551615; nothing where its aliases lead to a loop.
#[derive(Drop)]
pub struct SignatureScope {
    pub vars: NameTable,
    pub arrows: Option<u64>,
}

// How many arrows are counted in a signature's type.
fn arrows_of(
    w: &Written,
    vars: &NameTable,
    types: &TypeNames<'_>,
    measures: &[Option<Measure>],
) -> Option<u64>
    requires { length measures.now ≡ length types.now.names }
    ensures { (trees : List (Option Tree)) → AreMeasures trees measures.now →
        result ≡ option_map (λ t. min (arrows t) ceiling) (type_of (scope_with vars.now
        (declared_in types.now) (standing_in types.now trees)) w.now) }
{
    match measure_of(w, &Names::Outermost(&*vars, &*types), measures) {
        Some(measure) => Some(measure.arrows),
        None => None,
    }
}

// What is kept of one signature.
fn scope_of(
    alloc: Global,
    entry: &SignatureEntry<'_>,
    types: &TypeNames<'_>,
    measures: &[Option<Measure>],
) -> Result<SignatureScope, AllocError>
    requires { length measures.now ≡ length types.now.names }
    ensures { (trees : List (Option Tree)) → AreMeasures trees measures.now →
        IfOk result (IsScopeOf types.now trees entry.now) }
{
    let mut noted = None;
    let vars = variables_of(alloc, entry.binders, &mut noted)?;
    let arrows = arrows_of(entry.its_type, &vars, types, measures);
    Ok(SignatureScope { vars, arrows })
}

/// What is kept of each signature.
pub(crate) fn scopes_of(
    alloc: Global,
    signatures: &Signatures<'_>,
    types: &TypeNames<'_>,
    measures: &[Option<Measure>],
) -> Result<Vec<SignatureScope>, AllocError>
    requires { length measures.now ≡ length types.now.names }
    ensures { (trees : List (Option Tree)) → AreMeasures trees measures.now →
        IfOk result (λ ss. AreScopes types.now trees signatures.now.entries.items ss.items) }
{
    let mut scopes = Vec::new(alloc);
    for entry in &signatures.entries {
        scopes.push(scope_of(alloc, entry, types, measures)?)?;
    }
    Ok(scopes)
}
