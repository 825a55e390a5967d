ghost use Rattle.std.specs.Prelude.{◌≡◌, ◌∷◌, [], IfOk};
ghost use Rattle.fst_derivations.specs.Deriv.{deriv_of, parts_of, type_of, row, convert, none, one, two, three};

use fst_types::Ty;
use std::alloc::{AllocError, Global};

/// A derivation: a row for one term, with the type that the rule of the term's form gives it and the derivations of its
/// parts in order of text; or a conversion of the derivation of the same term, from the type found to the one wanted.
pub enum Derivation {
    Row(Ty, Vec<Derivation>),
    Convert(Ty, Ty, Box<Derivation>),
}

// A loop down the first parts, so that a long chain doesn't run out of stack.
impl Drop for Derivation {
    fn drop(mut self) {
        loop {
            match self {
                Derivation::Row(_ty, mut parts) => {
                    if parts.is_empty() {
                        return;
                    }
                    self = parts.remove(0);
                }
                Derivation::Convert(_found, _wanted, part) => self = Box::into_inner(part),
            }
        }
    }
}

/// The derivations of two parts.
pub fn two_parts(
    alloc: Global,
    first: Derivation,
    second: Derivation,
) -> Result<Vec<Derivation>, AllocError>
    ensures { IfOk result (λ parts. parts.items ≡ first ∷ second ∷ []) }
{
    let mut parts = Vec::new(alloc);
    parts.push(first)?;
    parts.push(second)?;
    Ok(parts)
}

impl Derivation {
    /// The type that the derivation gives to its term.
    pub fn type_of(&self) -> &Ty
        ensures { result.now ≡ type_of (deriv_of self.now) }
    {
        match self {
            Derivation::Row(ty, _) => ty,
            Derivation::Convert(_, wanted, _) => wanted,
        }
    }

    /// A row with these parts.
    #[tactic(auto, using(crate::proofs::Rows::row_hidden))]
    pub fn row(ty: Ty, parts: Vec<Derivation>) -> Derivation
        ensures { deriv_of result ≡ row ty (parts_of parts.items) }
    {
        Derivation::Row(ty, parts)
    }

    /// A row without parts.
    pub fn leaf(alloc: Global, ty: Ty) -> Derivation
        ensures { deriv_of result ≡ row ty none }
    {
        Derivation::row(ty, Vec::new(alloc))
    }

    /// A row with one part.
    pub fn with_one(alloc: Global, ty: Ty, part: Derivation) -> Result<Derivation, AllocError>
        ensures { IfOk result (λ d. deriv_of d ≡ row ty (one (deriv_of part))) }
    {
        let mut parts = Vec::new(alloc);
        parts.push(part)?;
        Ok(Derivation::row(ty, parts))
    }

    /// A row with two parts.
    pub fn with_two(
        alloc: Global,
        ty: Ty,
        first: Derivation,
        second: Derivation,
    ) -> Result<Derivation, AllocError>
        ensures { IfOk result (λ d. deriv_of d ≡ row ty (two (deriv_of first) (deriv_of second))) }
    {
        Ok(Derivation::row(ty, two_parts(alloc, first, second)?))
    }

    /// A row with three parts.
    pub fn with_three(
        alloc: Global,
        ty: Ty,
        first: Derivation,
        second: Derivation,
        third: Derivation,
    ) -> Result<Derivation, AllocError>
        ensures { IfOk result (λ d. deriv_of d ≡ row ty (three (deriv_of first) (deriv_of second)
            (deriv_of third))) }
    {
        let mut parts = Vec::new(alloc);
        parts.push(first)?;
        parts.push(second)?;
        parts.push(third)?;
        Ok(Derivation::row(ty, parts))
    }

    /// The derivation turned to another type.
    pub fn turned(self, alloc: Global, found: Ty, wanted: Ty) -> Result<Derivation, AllocError>
        ensures { IfOk result (λ d. deriv_of d ≡ convert found wanted (deriv_of self)) }
    {
        Ok(Derivation::Convert(found, wanted, Box::new(alloc, self)?))
    }
}
