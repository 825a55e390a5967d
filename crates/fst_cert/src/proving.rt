//! The proof that a certificate gives.

ghost use Rattle.std.specs.Prelude.{All, IfOk};
ghost use Rattle.fst_cert.specs.Certificates.{HasNoEmpty};
ghost use Rattle.fst_cert.specs.Proofs.{IsOfYes, IsProofOf};

use crate::visited::visited_proof;
use fst_basis::Proof;
use fst_equiv::Certificate;
use fst_grammar::ends_law;
use fst_norms::unnormed;
use std::alloc::{AllocError, Global};

/// The proof that the certificate of a Yes gives: its own, or the pairs that it has with chains.
pub fn proof_of(alloc: Global, c: Certificate) -> Result<Proof, AllocError>
    requires { IsOfYes c }
    ensures proof { IfOk result (λ p. IsProofOf c p.basis.items p.chains.items) }
    ensures words { IfOk result (λ p. All HasNoEmpty p.basis.items) }
{
    ends_law();
    match c {
        Certificate::Basis(_g, _left, _right, proof) => Ok(proof),
        Certificate::Visited(g, left, right, pairs) => {
            let marks = unnormed(alloc, &g)?;
            let proof = visited_proof(alloc, &g, marks.as_slice(), &left, &right, &pairs)?;
            Ok(proof)
        }
    }
}
