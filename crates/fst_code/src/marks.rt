ghost use Rattle.std.specs.Prelude.{◌≡◌, ◌<◌, ◌+◌, ◌^◌, ◌&&◌, ℕ, Bool, List, suc, not, IfOk, OnOk, length};
ghost use Rattle.fst_terms.specs.declared.binder.Binder.{Binder};
ghost use Rattle.fst_machine.specs.Free.{is};
ghost use Rattle.fst_machine.specs.Code.{Lists, also, dropped, no_variables, within, within_all};
ghost use Rattle.fst_code.specs.Marks.{entered, marked};

use std::alloc::{AllocError, Global};

// Which variables in scope are used behind: a mark for each, the innermost last.

/// As many variables, none of which is used behind.
pub(crate) fn unmarked(alloc: Global, count: usize) -> Result<Vec<bool>, AllocError>
    ensures marks { IfOk result (λ v. marked v.items ≡ no_variables) }
    ensures deep { IfOk result (λ v. length v.items ≡ count) }
{
    let mut marks = Vec::new(alloc);
    for _i in 0..count {
        marks.push(false)?;
    }
    Ok(marks)
}

/// One more variable, which isn't used behind.
pub(crate) fn enter(later: &mut Vec<bool>) -> Result<(), AllocError>
    ensures marks { OnOk result (marked later.new.items ≡ within (marked later.old.items)) }
    ensures deep { OnOk result (length later.new.items ≡ suc (length later.old.items)) }
{
    later.push(false)?;
    Ok(())
}

/// Leaves the innermost variable: whether it is used.
pub(crate) fn leave(later: &mut Vec<bool>) -> bool
    requires { 0 < length later.old.items }
    ensures marks { marked later.old.items ≡ entered result (marked later.new.items) }
    ensures deep { length later.old.items ≡ suc (length later.new.items) }
{
    later.pop().unwrap()
}

/// Whether a variable is used behind.
pub(crate) fn is_marked(later: &[bool], k: usize) -> bool
    ensures { result ≡ marked later.now k }
{
    if k < later.len() {
        later[later.len() - 1 - k]
    } else {
        false
    }
}

/// Marks a variable.
pub(crate) fn mark(later: &mut Vec<bool>, k: usize)
    requires { k < length later.old.items }
    ensures marks { marked later.new.items ≡ also (is k) (marked later.old.items) }
    ensures deep { length later.new.items ≡ length later.old.items }
{
    let level = later.len() - 1 - k;
    later[level] = true;
}

/// Marks all variables that are marked in another list.
pub(crate) fn mark_all(later: &mut Vec<bool>, others: &[bool])
    requires { length others.now ≡ length later.old.items }
    ensures marks { marked later.new.items ≡ also (marked others.now) (marked later.old.items) }
    ensures deep { length later.new.items ≡ length later.old.items }
{
    for (i, used) in others.iter().enumerate() {
        if *used {
            later[i] = true;
        }
    }
}

/// The variables that are marked, in rising order.
pub(crate) fn variables_in(alloc: Global, marks: &[bool]) -> Result<Vec<u32>, AllocError>
    requires { length marks.now < 2 ^ 32 }
    ensures lists { IfOk result (λ ks. Lists ks.items (marked marks.now)) }
    ensures few { IfOk result (λ ks. length ks.items < 2 ^ 32) }
{
    let mut found = Vec::new(alloc);
    for k in 0..marks.len() {
        if is_marked(marks, k) {
            found.push(k as u32)?;
        }
    }
    Ok(found)
}

// The marks of the first list that the second one hasn't.
fn only_in(alloc: Global, all: &[bool], some: &[bool]) -> Result<Vec<bool>, AllocError>
    requires { length some.now ≡ length all.now }
    ensures marks { IfOk result (λ v. (k : ℕ) →
        marked v.items k ≡ (marked all.now k && not (marked some.now k))) }
    ensures deep { IfOk result (λ v. length v.items ≡ length all.now) }
{
    let mut marks = Vec::new(alloc);
    for (i, used) in all.iter().enumerate() {
        marks.push(*used && !some[i])?;
    }
    Ok(marks)
}

/// The variables that all branches together use and this one doesn't, and that aren't used behind.
pub(crate) fn forgotten(
    alloc: Global,
    all: &[bool],
    branch: &[bool],
) -> Result<Vec<u32>, AllocError>
    requires deep { length branch.now ≡ length all.now }
    requires few { length all.now < 2 ^ 32 }
    ensures { IfOk result (λ ks. (q f p : ℕ → Bool) → marked all.now ≡ also q p →
        marked branch.now ≡ also f p → Lists ks.items (dropped q f p)) }
{
    let only = only_in(alloc, all, branch)?;
    Ok(variables_in(alloc, &only)?)
}

/// A list of marks of its own.
pub(crate) fn copied(alloc: Global, later: &[bool]) -> Result<Vec<bool>, AllocError>
    ensures { IfOk result (λ v. v.items ≡ later.now) }
{
    Vec::from_slice(alloc, later)
}

/// So many more variables, none of which is used behind.
pub(crate) fn enter_all(later: &mut Vec<bool>, count: usize) -> Result<(), AllocError>
    ensures marks { OnOk result ((xs : List Binder) → length xs ≡ count →
        marked later.new.items ≡ within_all xs (marked later.old.items)) }
    ensures deep { OnOk result (length later.new.items ≡ count + length later.old.items) }
{
    for _i in 0..count {
        enter(later)?;
    }
    Ok(())
}
