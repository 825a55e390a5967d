ghost use Rattle.std.specs.Prelude.{◌≡◌, ◌≤◌, ◌<◌, ◌+◌, ◌^◌, ◌∷◌, [], ℕ, Bool, List, IfOk, OnOk, length};
ghost use Rattle.fst_types.specs.declared.family.Family.{Family};
ghost use Rattle.fst_terms.specs.declared.binder.Binder.{Binder};
ghost use Rattle.fst_machine.specs.Free.{outside_all};
ghost use Rattle.fst_machine.specs.Code.{Lists, also, dropped, load};
ghost use Rattle.fst_code.specs.Marks.{marked};
ghost use Rattle.fst_code.specs.Written.{Drops, EntersAll, Forgot, Loads, Pushes, compiled};

use crate::built::{Built, bind, come_to, push, top_of};
use crate::marks::{forgotten, is_marked, leave};
use fst_machine::Instr;
use std::alloc::{AllocError, Global};

// What puts the value of a variable on the stack: a copy of it where it is used later.
fn load_of(used: bool, k: u32) -> Instr
    ensures { result ≡ load used k }
{
    if used { Instr::Load(k) } else { Instr::Take(k) }
}

/// Puts the value of a variable on the stack.
pub(crate) fn push_load(out: &mut Built, later: &[bool], k: u32) -> Result<(), AllocError>
    ensures { OnOk result ((fs : List Family) →
        Pushes (compiled fs out.old) (compiled fs out.new) (load (marked later.now k) k)) }
{
    let used = is_marked(later, k as usize);
    push(out, load_of(used, k))?;
    Ok(())
}

/// Puts the values of variables on the stack, the last one last.
pub(crate) fn capture(out: &mut Built, later: &[bool], variables: &[u32]) -> Result<(), AllocError>
    ensures { OnOk result ((fs : List Family) →
        Loads (compiled fs out.old) (compiled fs out.new) variables.now (marked later.now)) }
{
    for i in (0..variables.len()).rev() {
        push_load(out, later, variables[i])?;
    }
    Ok(())
}

// Drops the value of a variable.
fn drop_one(out: &mut Built, k: u32) -> Result<(), AllocError>
    ensures { OnOk result ((fs : List Family) →
        Drops (compiled fs out.old) (compiled fs out.new) (k ∷ [])) }
{
    push(out, Instr::Drop)?;
    push(out, Instr::Take(k))?;
    Ok(())
}

// Drops the values of variables.
fn drop_all(out: &mut Built, variables: &[u32]) -> Result<(), AllocError>
    ensures { OnOk result ((fs : List Family) →
        Drops (compiled fs out.old) (compiled fs out.new) variables.now) }
{
    for i in (0..variables.len()).rev() {
        drop_one(out, variables[i])?;
    }
    Ok(())
}

// Drops the values of variables, and then comes to a place.
fn drop_before(out: &mut Built, variables: &[u32], start: u64) -> Result<(), AllocError>
    requires { start ≤ length out.old.code.items }
    ensures { OnOk result ((fs : List Family) (q f p : ℕ → Bool) →
        Lists variables.now (dropped q f p) →
        Forgot (compiled fs out.old) (compiled fs out.new)
        (length out.new.code.items) q f p start) }
{
    come_to(out, start)?;
    drop_all(out, variables)?;
    Ok(())
}

/// Drops what all branches together use and this one doesn't, and what isn't used behind, and then comes to the branch.
pub(crate) fn forget_here(
    alloc: Global,
    out: &mut Built,
    all: &[bool],
    branch: &[bool],
    start: u64,
) -> Result<(), AllocError>
    requires place { start ≤ length out.old.code.items }
    requires deep { length branch.now ≡ length all.now }
    requires few { length all.now < 2 ^ 32 }
    ensures { OnOk result ((fs : List Family) (q f p : ℕ → Bool) → marked all.now ≡ also q p →
        marked branch.now ≡ also f p →
        Forgot (compiled fs out.old) (compiled fs out.new)
        (length out.new.code.items) q f p start) }
{
    let variables = forgotten(alloc, all, branch)?;
    drop_before(out, &variables, start)?;
    Ok(())
}

/// The same, and the place where it begins: where nothing is dropped, that is the branch.
pub(crate) fn forget(
    alloc: Global,
    out: &mut Built,
    all: &[bool],
    branch: &[bool],
    start: u64,
) -> Result<u64, AllocError>
    requires place { start ≤ length out.old.code.items }
    requires deep { length branch.now ≡ length all.now }
    requires few { length all.now < 2 ^ 32 }
    ensures { IfOk result (λ i. (fs : List Family) (q f p : ℕ → Bool) → marked all.now ≡ also q p →
        marked branch.now ≡ also f p →
        Forgot (compiled fs out.old) (compiled fs out.new) i q f p start) }
{
    let variables = forgotten(alloc, all, branch)?;
    if variables.is_empty() {
        return Ok(start);
    }
    drop_before(out, &variables, start)?;
    Ok(top_of(out))
}

/// Leaves so many variables, the innermost first, and makes variables of the last values, the last one innermost.
pub(crate) fn leave_all(
    out: &mut Built,
    later: &mut Vec<bool>,
    count: usize,
) -> Result<(), AllocError>
    requires { count ≤ length later.old.items }
    ensures code { OnOk result ((fs : List Family) (xs : List Binder) → length xs ≡ count →
        EntersAll (compiled fs out.old) (compiled fs out.new) xs (marked later.old.items)) }
    ensures marks { OnOk result ((xs : List Binder) → length xs ≡ count →
        marked later.new.items ≡ outside_all xs (marked later.old.items)) }
    ensures deep { OnOk result (length later.old.items ≡ count + length later.new.items) }
{
    for _i in 0..count {
        let used = leave(later);
        bind(out, used)?;
    }
    Ok(())
}
