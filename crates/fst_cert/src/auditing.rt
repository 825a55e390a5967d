//! Whether a proof shows that two types are equivalent.

ghost use Rattle.std.specs.Prelude.{◌≡◌, ◌↔◌, IfErr, IfOk, IsTrue, List};
ghost use Rattle.fst_base.specs.Agreement.{Agree};
ghost use Rattle.fst_types.specs.declared.kind.Kind.{Kind};
ghost use Rattle.fst_kinds.specs.WellFormed.{IsSession};
ghost use Rattle.fst_lts.specs.Step.{step};
ghost use Rattle.fst_grammar.specs.Translation.{IsTooLarge};
ghost use Rattle.fst_cert.specs.Audits.{IsValid};
ghost use Rattle.fst_cert.specs.declared.fault.AuditFault.TheVariants.{TooLarge};

use crate::fault::AuditFault;
use fst_basis::{Proof, check};
use fst_grammar::{one_grammar, translate};
use fst_norms::{prune, unnormed};
use fst_types::Ty;
use std::alloc::Global;

/// Whether `check` accepts a proof for the pruned words of two session types: then the types are equivalent.
pub fn audit(alloc: Global, t: &Ty, u: &Ty, p: &Proof) -> Result<bool, AuditFault>
    requires session_left { (vars : List Kind) × IsSession vars t.now }
    requires session_right { (vars : List Kind) × IsSession vars u.now }
    ensures valid { IfOk result (λ b. IsTrue b ↔ IsValid t.now u.now p.now.basis.items
        p.now.chains.items) }
    ensures agree { IfOk result (λ b. IsTrue b → Agree step step t.now u.now) }
    ensures small { IfOk result (λ b. ¬ (IsTooLarge t.now u.now)) }
    ensures too_large { IfErr result (λ f. f ≡ TooLarge → IsTooLarge t.now u.now) }
{
    one_grammar();
    let (g, mut left, mut right) = translate(alloc, t, u)?;
    let marks = unnormed(alloc, &g)?;
    let marks = marks.as_slice();
    prune(&mut left, marks);
    prune(&mut right, marks);
    let valid = check(alloc, &g, marks, &left, &right, &p.basis, &p.chains)?;
    Ok(valid)
}
