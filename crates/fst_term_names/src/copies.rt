ghost use Rattle.std.specs.Prelude.{◌≡◌, IfOk};

use fst_terms::Binder;
use std::alloc::{AllocError, Global};

/// The same name, bound at the same byte.
pub(crate) fn copy_binder(alloc: Global, binder: &Binder) -> Result<Binder, AllocError>
    ensures { IfOk result (λ b. b ≡ binder.now) }
{
    Ok(Binder {
        name: binder.name.copy(alloc)?,
        at: binder.at,
    })
}

/// The same names, bound at the same bytes.
pub(crate) fn copy_binders(alloc: Global, binders: &[Binder]) -> Result<Vec<Binder>, AllocError>
    ensures { IfOk result (λ bs. bs.items ≡ binders.now) }
{
    let mut copies = Vec::new(alloc);
    for binder in binders {
        copies.push(copy_binder(alloc, binder)?)?;
    }
    Ok(copies)
}
