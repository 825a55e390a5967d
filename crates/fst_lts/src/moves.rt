ghost use Rattle.std.specs.Prelude.{◌≡◌, ◌∷◌, [], List, IfOk, IfSome, IsSome, IsTrue, Contains, ◌↔◌, option_map, Some, None, if◌then◌else◌};
ghost use Rattle.fst_types.specs.Tree as tree;
ghost use Rattle.fst_types.specs.ModelView.{branches_of};
ghost use Rattle.fst_types.specs.Order.{IsOrdered, label_cmp};
ghost use Rattle.fst_types.specs.declared.label.Label.{Label};
ghost use Rattle.fst_types.specs.declared.kind.Kind.{Kind};
ghost use Rattle.fst_kinds.specs.WellFormed.{IsSession};
ghost use Rattle.fst_lts.specs.Step.{terminated, labels, choice_labels, step, step_in, branch_at, is_end, followed};
ghost use Rattle.fst_base.specs.Agreement.{residual};
ghost use Rattle.fst_base.specs.Order.{IsRising};
ghost use Rattle.fst_types.specs.ModelScopes.{env_of};
ghost use Rattle.fst_types.specs.Substitution.{substitute};

use fst_types::{Branch, Label, MOST_OPEN, Scope, Ty, TyForm, copy, substitute_within};
use std::alloc::{AllocError, Global};

/// Whether no move is left.
pub fn terminated(t: &Ty) -> bool
    ensures ends { result ≡ terminated t.now }
    ensures unlabelled { (vars : List Kind) → IsSession vars t.now →
        (IsTrue result ↔ (labels t.now ≡ [])) }
{
    is_terminated(t)
}

pub(crate) fn is_terminated(t: &Ty) -> bool
    ensures { result ≡ terminated t.now }
{
    match &t.form {
        TyForm::Skip => true,
        TyForm::Send(_) => false,
        TyForm::Receive(_) => false,
        TyForm::Close => false,
        TyForm::Wait => false,
        TyForm::Select(_) => false,
        TyForm::Offer(_) => false,
        TyForm::Seq(first, second) => is_terminated(first) && is_terminated(second),
        TyForm::Rec(body) => is_terminated(body),
        TyForm::Back(_) => false,
        TyForm::Var(_) => false,
        TyForm::Plain(_) => false,
        TyForm::Arrow(_, _, _) => false,
        TyForm::Pair(_, _) => false,
        TyForm::Named(_) => false,
    }
}

/// The labels by which a type moves, those of a choice in the order of its branches.
#[tactic(auto, using(crate::proofs::MoveRules::of_labels))]
pub fn labels(alloc: Global, t: &Ty) -> Result<Vec<Label>, AllocError>
    ensures items { IfOk result (λ found. found.items ≡ labels t.now) }
    ensures moves { IfOk result (λ found. (a : Label) →
        Contains found.items a ↔ IsSome (step t.now a)) }
    ensures rising { IsOrdered t.now → IfOk result (λ found. IsRising label_cmp found.items) }
{
    labels_within(alloc, t)
}

fn labels_within(alloc: Global, t: &Ty) -> Result<Vec<Label>, AllocError>
    ensures { IfOk result (λ found. found.items ≡ labels t.now) }
{
    match &t.form {
        TyForm::Skip => Ok(Vec::new(alloc)),
        TyForm::Send(base) => one_label(alloc, Label::Send(*base)),
        TyForm::Receive(base) => one_label(alloc, Label::Receive(*base)),
        TyForm::Close => one_label(alloc, Label::Close),
        TyForm::Wait => one_label(alloc, Label::Wait),
        TyForm::Select(branches) => select_labels(alloc, branches),
        TyForm::Offer(branches) => offer_labels(alloc, branches),
        TyForm::Seq(first, second) => {
            if is_terminated(first) {
                labels_within(alloc, second)
            } else {
                labels_within(alloc, first)
            }
        }
        TyForm::Rec(body) => labels_within(alloc, body),
        TyForm::Back(_) => Ok(Vec::new(alloc)),
        TyForm::Var(k) => one_label(alloc, Label::Var(*k)),
        TyForm::Plain(_) => Ok(Vec::new(alloc)),
        TyForm::Arrow(_, _, _) => Ok(Vec::new(alloc)),
        TyForm::Pair(_, _) => Ok(Vec::new(alloc)),
        TyForm::Named(_) => Ok(Vec::new(alloc)),
    }
}

fn one_label(alloc: Global, label: Label) -> Result<Vec<Label>, AllocError>
    ensures { IfOk result (λ found. found.items ≡ label ∷ []) }
{
    let mut found = Vec::new(alloc);
    found.push(label)?;
    Ok(found)
}

fn select_labels(alloc: Global, branches: &[Branch]) -> Result<Vec<Label>, AllocError>
    ensures { IfOk result (λ found. found.items ≡ choice_labels Label.Select
        (branches_of branches.now)) }
{
    let mut found = Vec::new(alloc);
    for branch in branches {
        found.push(Label::Select(branch.label.copy(alloc)?))?;
    }
    Ok(found)
}

fn offer_labels(alloc: Global, branches: &[Branch]) -> Result<Vec<Label>, AllocError>
    ensures { IfOk result (λ found. found.items ≡ choice_labels Label.Offer
        (branches_of branches.now)) }
{
    let mut found = Vec::new(alloc);
    for branch in branches {
        found.push(Label::Offer(branch.label.copy(alloc)?))?;
    }
    Ok(found)
}

/// The type after a label, or none where the type doesn't move by it.
#[tactic(auto, using(crate::proofs::MoveRules::of_step))]
pub fn step(alloc: Global, t: &Ty, a: &Label) -> Result<Option<Ty>, AllocError>
    ensures next { IfOk result (λ next. next ≡ step t.now a.now) }
    ensures ordered { IsOrdered t.now → IfOk result (λ next. IfSome next IsOrdered) }
    ensures well_formed { (vars : List Kind) → IsSession vars t.now → IfOk result
        (λ next. IfSome next (IsSession vars)) }
{
    step_opening(alloc, t, a, MOST_OPEN)
}

/// The same by a call that may open so many levels.
pub(crate) fn step_opening(
    alloc: Global,
    t: &Ty,
    a: &Label,
    left: u32,
) -> Result<Option<Ty>, AllocError>
    ensures { IfOk result (λ next. next ≡ step t.now a.now) }
{
    step_within(alloc, &Scope::Top, t, a, left)
}

fn step_within(
    alloc: Global,
    scope: &Scope<'_>,
    t: &Ty,
    a: &Label,
    left: u32,
) -> Result<Option<Ty>, AllocError>
    ensures { IfOk result (λ next. next ≡ step_in (env_of scope.now) t.now a.now) }
{
    if left == 0 {
        return Err(AllocError);
    }
    let left = left - 1;
    match &t.form {
        TyForm::Skip => Ok(None),
        TyForm::Send(base) => Ok(skip_if(a.same(&Label::Send(*base)))),
        TyForm::Receive(base) => Ok(skip_if(a.same(&Label::Receive(*base)))),
        TyForm::Close => Ok(skip_if(a.same(&Label::Close))),
        TyForm::Wait => Ok(skip_if(a.same(&Label::Wait))),
        TyForm::Select(branches) => match selected(branches, a) {
            Some(body) => substituted(alloc, scope, body, left),
            None => Ok(None),
        },
        TyForm::Offer(branches) => match offered(branches, a) {
            Some(body) => substituted(alloc, scope, body, left),
            None => Ok(None),
        },
        TyForm::Seq(first, second) => {
            if is_terminated(first) {
                step_within(alloc, scope, second, a, left)
            } else {
                match step_within(alloc, scope, first, a, left)? {
                    None => Ok(None),
                    Some(next) => Ok(Some(followed(alloc, scope, a, next, second, left)?)),
                }
            }
        }
        TyForm::Rec(body) => step_within(alloc, &Scope::Under(t, scope), body, a, left),
        TyForm::Back(_) => Ok(None),
        TyForm::Var(k) => Ok(skip_if(a.same(&Label::Var(*k)))),
        TyForm::Plain(_) => Ok(None),
        TyForm::Arrow(_, _, _) => Ok(None),
        TyForm::Pair(_, _) => Ok(None),
        TyForm::Named(_) => Ok(None),
    }
}

fn substituted(
    alloc: Global,
    scope: &Scope<'_>,
    t: &Ty,
    left: u32,
) -> Result<Option<Ty>, AllocError>
    ensures { IfOk result (λ next. next ≡ Some (substitute (env_of scope.now) t.now)) }
{
    Ok(Some(substitute_within(alloc, scope, t, left)?))
}

/// Whether a protocol ends by the label, so that nothing behind it is reached.
pub fn is_end(a: &Label) -> bool
    ensures { result ≡ is_end a.now }
{
    match a {
        Label::Send(_) => false,
        Label::Receive(_) => false,
        Label::Select(_) => false,
        Label::Offer(_) => false,
        Label::Close => true,
        Label::Wait => true,
        Label::Var(_) => false,
    }
}

// What is left after a label: the type with another one behind it, into which what the binders
// around it stand for is put, and behind an end nothing.
fn followed(
    alloc: Global,
    scope: &Scope<'_>,
    a: &Label,
    next: Ty,
    second: &Ty,
    left: u32,
) -> Result<Ty, AllocError>
    ensures { IfOk result
        (λ t. t ≡ followed a.now (substitute (env_of scope.now) second.now) next) }
{
    if is_end(a) {
        return Ok(Ty { form: TyForm::Skip });
    }
    let behind = substitute_within(alloc, scope, second, left)?;
    Ok(Ty {
        form: TyForm::Seq(Box::new(alloc, next)?, Box::new(alloc, behind)?),
    })
}

fn skip_if(moves: bool) -> Option<Ty>
    ensures { result ≡ (if moves then Some tree.skip else None) }
{
    if moves {
        Some(Ty { form: TyForm::Skip })
    } else {
        None
    }
}

/// The branch of a selection that a label leads to.
pub(crate) fn selected<'a>(branches: &'a [Branch], a: &Label) -> Option<&'a Ty>
    ensures { option_map (λ t. t.now) result ≡ branch_at Label.Select
        (branches_of branches.now) a.now }
{
    for branch in branches {
        if a.is_select(&branch.label) {
            return Some(&branch.body);
        }
    }
    None
}

/// The branch of an offer that a label leads to.
pub(crate) fn offered<'a>(branches: &'a [Branch], a: &Label) -> Option<&'a Ty>
    ensures { option_map (λ t. t.now) result ≡ branch_at Label.Offer
        (branches_of branches.now) a.now }
{
    for branch in branches {
        if a.is_offer(&branch.label) {
            return Some(&branch.body);
        }
    }
    None
}

/// What is left of a type after a trace, or none where the type doesn't perform the trace.
#[tactic(auto, using(crate::proofs::MoveRules::of_residual))]
pub fn residual(alloc: Global, t: &Ty, trace: &[Label]) -> Result<Option<Ty>, AllocError>
    ensures residual { IfOk result (λ left. left ≡ residual step t.now trace.now) }
    ensures ordered { IsOrdered t.now → IfOk result (λ left. IfSome left IsOrdered) }
    ensures well_formed { (vars : List Kind) → IsSession vars t.now → IfOk result
        (λ left. IfSome left (IsSession vars)) }
{
    residual_within(alloc, t, trace)
}

fn residual_within(alloc: Global, t: &Ty, trace: &[Label]) -> Result<Option<Ty>, AllocError>
    ensures { IfOk result (λ left. left ≡ residual step t.now trace.now) }
{
    let mut left = copy(alloc, t)?;
    for a in trace {
        match step(alloc, &left, a)? {
            Some(next) => left = next,
            None => return Ok(None),
        }
    }
    Ok(Some(left))
}
