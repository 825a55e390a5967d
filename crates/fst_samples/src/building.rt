//! Types by their codes.

ghost use Rattle.std.specs.Prelude.{◌∷◌, IsTrue};
ghost use Rattle.fst_types.specs.ModelView.{branches_of};
ghost use Rattle.fst_types.specs.Scoped.{IsScoped, AllScoped};
ghost use Rattle.fst_types.specs.Order.{IsSorted, AreSorted, EachChoiceBelow};
ghost use Rattle.fst_types.specs.declared.kind.Kind.{Kind};
ghost use Rattle.fst_kinds.specs.WellFormed.{IsSession, IsWellFormed};
ghost use Rattle.fst_equiv.specs.Comparison.{AreFormed};

use fst_kinds::kind_of;
use fst_types::{
    Base, Branch, Kind, Name, Prekind, Ty, TyForm, UnfoldFault, Use, copy, unfold,
    unfold_within_limit,
};
use std::alloc::{AllocError, Global};
use std::test::Fail;

fn taken(stack: &mut Vec<Ty>) -> Ty {
    match stack.pop() {
        Some(t) => t,
        None => Ty { form: TyForm::Skip },
    }
}

fn part(alloc: Global, stack: &mut Vec<Ty>) -> Result<Box<Ty>, AllocError> {
    Ok(Box::new(alloc, taken(stack))?)
}

fn branches(
    alloc: Global,
    labels: &[&str],
    stack: &mut Vec<Ty>,
) -> Result<Vec<Branch>, AllocError> {
    let mut list = Vec::new(alloc);
    for label in labels {
        let label = Name::of(alloc, label.as_bytes())?;
        list.push(Branch {
            label,
            body: taken(stack),
        })?;
    }
    Ok(list)
}

fn leaf(sign: u8) -> TyForm {
    match sign {
        b'!' => TyForm::Send(Base::Int),
        b'^' => TyForm::Send(Base::Bool),
        b'%' => TyForm::Send(Base::Unit),
        b'?' => TyForm::Receive(Base::Bool),
        b'@' => TyForm::Receive(Base::Int),
        b'$' => TyForm::Receive(Base::Unit),
        b'k' => TyForm::Close,
        b'w' => TyForm::Wait,
        b'i' => TyForm::Plain(Base::Int),
        b'h' => TyForm::Plain(Base::Char),
        b'u' => TyForm::Plain(Base::Unit),
        b'n' => TyForm::Named(0),
        b'm' => TyForm::Named(1),
        b'0'..=b'9' => TyForm::Back(u32::from(sign - b'0')),
        b'a'..=b'f' => TyForm::Var(u32::from(sign - b'a')),
        b'z' => TyForm::Var(u32::MAX),
        _ => TyForm::Skip,
    }
}

/// The node of a sign, whose parts are taken from the stack.
fn node(alloc: Global, sign: u8, stack: &mut Vec<Ty>) -> Result<TyForm, AllocError> {
    match sign {
        b'r' => Ok(TyForm::Rec(part(alloc, stack)?)),
        b';' => Ok(TyForm::Seq(part(alloc, stack)?, part(alloc, stack)?)),
        b',' => Ok(TyForm::Pair(part(alloc, stack)?, part(alloc, stack)?)),
        b'>' => Ok(TyForm::Arrow(Use::Many, part(alloc, stack)?, part(alloc, stack)?)),
        b'o' => Ok(TyForm::Arrow(Use::Once, part(alloc, stack)?, part(alloc, stack)?)),
        b'-' => Ok(TyForm::Select(branches(alloc, &["B"], stack)?)),
        b'_' => Ok(TyForm::Offer(branches(alloc, &["B"], stack)?)),
        b'+' => Ok(TyForm::Select(branches(alloc, &["A", "B"], stack)?)),
        b'&' => Ok(TyForm::Offer(branches(alloc, &["A", "B"], stack)?)),
        b'*' => Ok(TyForm::Select(branches(alloc, &["A", "C"], stack)?)),
        b'=' => Ok(TyForm::Select(branches(alloc, &["A", "A"], stack)?)),
        b'#' => Ok(TyForm::Select(branches(alloc, &["C", "C"], stack)?)),
        _ => Ok(leaf(sign)),
    }
}

/// The type of a code, in which the sign of a node stands before those of its parts. `s` is `Skip`; `!`, `^`, `%` are
/// `!Int`, `!Bool`, `!()`, and `@`, `?`, `$` are `?Int`, `?Bool`, `?()`; `k` and `w` are `Close` and `Wait`; `i`, `h`, `u`
/// are `Int`, `Char`, `()`; `n` and `m` the first two data types; `0` the innermost recursion variable, `1` the next; `a` to
/// `f` the first variables of a signature, `z` the last. `r` is `rec`, `,` a pair, `>` is `->`, `o` is `1->`; `-` selects
/// `B`, `_` offers it, `+` selects `A` or `B`, `&` offers both, `*` selects `A` or `C`, `=` between two `A`, `#` between two
/// `C`.
pub fn ty(alloc: Global, code: &str) -> Result<Ty, AllocError> {
    let mut stack = Vec::new(alloc);
    stack_up(alloc, code, &mut stack)?;
    Ok(taken(&mut stack))
}

fn stack_up(alloc: Global, code: &str, stack: &mut Vec<Ty>) -> Result<(), AllocError> {
    for sign in code.bytes().rev() {
        let form = node(alloc, sign, stack)?;
        stack.push(Ty { form })?;
    }
    Ok(())
}

/// The type of a code in which this type stands between these signs.
pub fn ty_around(alloc: Global, front: &str, inner: Ty, back: &str) -> Result<Ty, AllocError> {
    let mut stack = Vec::new(alloc);
    stack_up(alloc, back, &mut stack)?;
    stack.push(inner)?;
    stack_up(alloc, front, &mut stack)?;
    Ok(taken(&mut stack))
}

// Whether at most n recursion variables are free, and labels stand in byte order.
#[cycle(sound)]
pub(crate) fn sound(t: &Ty, n: u32) -> bool
    ensures { IsTrue result → IsScoped n t.now × IsSorted t.now }
{
    match &t.form {
        TyForm::Select(branches) => sorted(branches) && all_sound(branches, n),
        TyForm::Offer(branches) => sorted(branches) && all_sound(branches, n),
        TyForm::Seq(first, second) => sound(first, n) && sound(second, n),
        TyForm::Rec(body) => n < u32::MAX && sound(body, n + 1),
        TyForm::Back(k) => *k < n,
        TyForm::Arrow(_, from, to) => sound(from, n) && sound(to, n),
        TyForm::Pair(first, second) => sound(first, n) && sound(second, n),
        _ => true,
    }
}

#[cycle(sound)]
#[tactic(auto, using(fst_types::proofs::Laws::height_at))]
fn all_sound(branches: &[Branch], n: u32) -> bool
    ensures { IsTrue result → AllScoped n (branches_of branches.now) ×
        EachChoiceBelow AreSorted (branches_of branches.now) }
{
    for branch in branches {
        if !sound(&branch.body, n) {
            return false;
        }
    }
    true
}

fn sorted(branches: &[Branch]) -> bool
    ensures { IsTrue result → AreSorted (branches_of branches.now) }
{
    match branches.split_first() {
        None => false,
        Some((first, rest)) => sorted_after(first, rest),
    }
}

fn sorted_after(first: &Branch, rest: &[Branch]) -> bool
    ensures { IsTrue result → AreSorted (branches_of (first.now ∷ rest.now)) }
{
    match rest.split_first() {
        None => true,
        Some((second, later)) => {
            !first.label.as_slice().cmp(second.label.as_slice()).is_gt()
                && sorted_after(second, later)
        }
    }
}

/// Whether a type is a session type where its variables have these kinds.
#[tactic(auto, using(crate::proofs::Sessions::session_of))]
pub(crate) fn is_session(alloc: Global, t: &Ty, vars: &[Kind]) -> bool
    ensures { IsTrue result → IsSession vars.now t.now }
{
    if !sound(t, 0) {
        return false;
    }
    match kind_of(alloc, t, vars) {
        Ok(kind) => kind.prekind == Prekind::Session,
        Err(_) => false,
    }
}

/// Whether a type is well formed where its variables have these kinds.
fn has_kind(alloc: Global, t: &Ty, vars: &[Kind]) -> bool
    ensures { IsTrue result → (k : Kind) × IsWellFormed vars.now t.now k }
{
    sound(t, 0) && kind_of(alloc, t, vars).is_ok()
}

/// Whether two types are well formed where their variables have these kinds.
pub(crate) fn are_formed(alloc: Global, t: &Ty, u: &Ty, vars: &[Kind]) -> bool
    ensures { IsTrue result → AreFormed t.now u.now }
{
    has_kind(alloc, t, vars) && has_kind(alloc, u, vars)
}

/// The unfolding of a `rec` without free recursion variables; any other type is copied.
pub fn unfolded(alloc: Global, t: &Ty) -> Result<Ty, AllocError> {
    if !sound(t, 0) {
        return copy(alloc, t);
    }
    match &t.form {
        TyForm::Rec(_) => unfold(alloc, t),
        _ => copy(alloc, t),
    }
}

/// The same within the limit on nodes.
pub fn unfolded_within_limit(alloc: Global, t: &Ty) -> Result<Ty, UnfoldFault> {
    if !sound(t, 0) {
        return Ok(copy(alloc, t)?);
    }
    match &t.form {
        TyForm::Rec(_) => unfold_within_limit(alloc, t),
        _ => Ok(copy(alloc, t)?),
    }
}
