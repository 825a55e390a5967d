ghost use Rattle.std.specs.Prelude.{◌≡◌, ◌+◌, ◌<◌, ◌^◌, IfOk, OnOk};
ghost use Rattle.fst_types.specs.ModelView.{branches_of};
ghost use Rattle.fst_types.specs.Size.{nodes, nodes_all};
ghost use Rattle.fst_parts.specs.Shapes.{Shape, end, leaf, wrap, fork, link, shape_of, shape_of_all};
ghost use Rattle.fst_parts.specs.Keys.{first, second, link_key, Stands, KeepsNumbers};
ghost use Rattle.fst_parts.specs.Counts.{counts_of, HasFewNodes, HaveFewNodes};
ghost use Rattle.fst_parts.specs.Views.{HasNumber};

use crate::counts::Counts;
use crate::forms::{Form, Node};
use crate::trees::Trees;
use fst_types::{Branch, Name, Ty, TyForm, Use};
use std::alloc::{AllocError, Global};

/// A type, and the number of its tree.
#[derive(Clone, Copy)]
pub struct Numbered<'a> {
    pub ty: &'a Ty,
    pub number: usize,
}

impl Numbered<'_> {
    /// What is counted of it.
    pub fn counts(self, trees: &Trees) -> Counts
        requires { HasNumber trees.now self }
        ensures { result ≡ counts_of (shape_of self.entry.ty.now) }
    {
        trees.counts(self.number)
    }
}

/// The number of a node without parts, by its form and what it holds.
fn number_leaf(
    alloc: Global,
    trees: &mut Trees,
    form: Form,
    holds: u32,
) -> Result<usize, AllocError>
    ensures stands { IfOk result (λ i. Stands trees.new i (leaf form holds)) }
    ensures kept { OnOk result (KeepsNumbers trees.old trees.new) }
{
    let counts = Counts::of_leaf(form, holds);
    let key = Vec::from_slice(alloc, &[Node::Leaf.mark(), form.number(), holds as usize])?;
    let at = trees.put(key, counts)?;
    Ok(at)
}

/// The number of nothing.
fn number_end(alloc: Global, trees: &mut Trees) -> Result<usize, AllocError>
    ensures stands { IfOk result (λ i. Stands trees.new i end) }
    ensures kept { OnOk result (KeepsNumbers trees.old trees.new) }
{
    let key = Vec::new(alloc);
    let at = trees.put(key, Counts::of_end())?;
    Ok(at)
}

/// The number of a node with one part of this number.
fn number_wrap(
    alloc: Global,
    trees: &mut Trees,
    form: Form,
    part: usize,
) -> Result<usize, AllocError>
    requires few { HasFewNodes trees.old part }
    ensures stands { IfOk result (λ i. (x : Shape) → Stands trees.old part x →
        Stands trees.new i (wrap form x)) }
    ensures kept { OnOk result (KeepsNumbers trees.old trees.new) }
{
    let counts = Counts::of_wrap(form, trees.counts(part));
    let key = Vec::from_slice(alloc, &[Node::Wrap.mark(), part, form.number()])?;
    let at = trees.put(key, counts)?;
    Ok(at)
}

/// The number of a node with two parts of these numbers.
fn number_fork(
    alloc: Global,
    trees: &mut Trees,
    form: Form,
    first: usize,
    second: usize,
) -> Result<usize, AllocError>
    requires few { HaveFewNodes trees.old first second }
    ensures stands { IfOk result (λ i. (x y : Shape) → Stands trees.old first x →
        Stands trees.old second y → Stands trees.new i (fork form x y)) }
    ensures kept { OnOk result (KeepsNumbers trees.old trees.new) }
{
    let counts = Counts::of_fork(form, trees.counts(first), trees.counts(second));
    let key = Vec::from_slice(alloc, &[Node::Fork.mark(), first, second, form.number()])?;
    let at = trees.put(key, counts)?;
    Ok(at)
}

/// The key of a branch with those behind it.
fn key_of_link(
    alloc: Global,
    name: &Name,
    first: usize,
    second: usize,
) -> Result<Vec<usize>, AllocError>
    ensures { IfOk result (λ key. key.items ≡ link_key name.now first second) }
{
    let mut key = Vec::from_slice(alloc, &[Node::Link.mark(), first, second])?;
    let bytes = name.as_slice();
    for byte in bytes {
        key.push(usize::from(*byte))?;
    }
    Ok(key)
}

/// The number of a branch with those behind it.
fn number_link(
    alloc: Global,
    trees: &mut Trees,
    name: &Name,
    first: usize,
    second: usize,
) -> Result<usize, AllocError>
    requires few { HaveFewNodes trees.old first second }
    ensures stands { IfOk result (λ i. (x y : Shape) → Stands trees.old first x →
        Stands trees.old second y → Stands trees.new i (link name.now x y)) }
    ensures kept { OnOk result (KeepsNumbers trees.old trees.new) }
{
    let counts = Counts::of_link(trees.counts(first), trees.counts(second));
    let key = key_of_link(alloc, name, first, second)?;
    let at = trees.put(key, counts)?;
    Ok(at)
}

/// The number of a type's tree; each of its parts has one of its own.
#[cycle(number)]
fn number_of(alloc: Global, trees: &mut Trees, t: &Ty) -> Result<usize, AllocError>
    requires few { nodes t.now < 2 ^ 31 }
    ensures stands { IfOk result (λ i. Stands trees.new i (shape_of t.now)) }
    ensures kept { OnOk result (KeepsNumbers trees.old trees.new) }
{
    match &t.form {
        TyForm::Skip => number_end(alloc, trees),
        TyForm::Send(base) => number_leaf(alloc, trees, Form::Send, base.number()),
        TyForm::Receive(base) => number_leaf(alloc, trees, Form::Receive, base.number()),
        TyForm::Close => number_leaf(alloc, trees, Form::Close, 0),
        TyForm::Wait => number_leaf(alloc, trees, Form::Wait, 0),
        TyForm::Select(branches) => number_choice(alloc, trees, Form::Select, branches),
        TyForm::Offer(branches) => number_choice(alloc, trees, Form::Offer, branches),
        TyForm::Seq(first, second) => number_both(alloc, trees, Form::Seq, first, second),
        TyForm::Rec(body) => number_rec(alloc, trees, body),
        TyForm::Back(k) => number_leaf(alloc, trees, Form::Back, *k),
        TyForm::Var(k) => number_leaf(alloc, trees, Form::Var, *k),
        TyForm::Plain(base) => number_leaf(alloc, trees, Form::Plain, base.number()),
        TyForm::Arrow(Use::Many, from, to) => number_both(alloc, trees, Form::Many, from, to),
        TyForm::Arrow(Use::Once, from, to) => number_both(alloc, trees, Form::Once, from, to),
        TyForm::Pair(first, second) => number_both(alloc, trees, Form::Pair, first, second),
        TyForm::Named(k) => number_leaf(alloc, trees, Form::Named, *k),
    }
}

#[cycle(number)]
fn number_rec(alloc: Global, trees: &mut Trees, body: &Ty) -> Result<usize, AllocError>
    requires few { nodes body.now + 1 < 2 ^ 31 }
    ensures stands { IfOk result (λ i. Stands trees.new i (wrap Form.Rec (shape_of body.now))) }
    ensures kept { OnOk result (KeepsNumbers trees.old trees.new) }
{
    let part = number_of(alloc, trees, body)?;
    number_wrap(alloc, trees, Form::Rec, part)
}

#[cycle(number)]
fn number_both(
    alloc: Global,
    trees: &mut Trees,
    form: Form,
    first: &Ty,
    second: &Ty,
) -> Result<usize, AllocError>
    requires few { nodes first.now + nodes second.now + 1 < 2 ^ 31 }
    ensures stands { IfOk result (λ i. Stands trees.new i
        (fork form (shape_of first.now) (shape_of second.now))) }
    ensures kept { OnOk result (KeepsNumbers trees.old trees.new) }
{
    let left = number_of(alloc, trees, first)?;
    let right = number_of(alloc, trees, second)?;
    number_fork(alloc, trees, form, left, right)
}

#[cycle(number)]
fn number_choice(
    alloc: Global,
    trees: &mut Trees,
    form: Form,
    branches: &[Branch],
) -> Result<usize, AllocError>
    requires few { nodes_all (branches_of branches.now) + 1 < 2 ^ 31 }
    ensures stands { IfOk result (λ i. Stands trees.new i
        (wrap form (shape_of_all (branches_of branches.now)))) }
    ensures kept { OnOk result (KeepsNumbers trees.old trees.new) }
{
    let part = number_branches(alloc, trees, branches)?;
    number_wrap(alloc, trees, form, part)
}

#[cycle(number)]
fn number_branches(
    alloc: Global,
    trees: &mut Trees,
    branches: &[Branch],
) -> Result<usize, AllocError>
    requires few { nodes_all (branches_of branches.now) + 1 < 2 ^ 31 }
    ensures stands { IfOk result (λ i. Stands trees.new i
        (shape_of_all (branches_of branches.now))) }
    ensures kept { OnOk result (KeepsNumbers trees.old trees.new) }
{
    match branches.split_first() {
        None => number_end(alloc, trees),
        Some((branch, rest)) => {
            let body = number_of(alloc, trees, &branch.body)?;
            let list = number_branches(alloc, trees, rest)?;
            number_link(alloc, trees, &branch.label, body, list)
        }
    }
}

/// Two types with their numbers, and the trees that have numbers, which are all in both.
pub fn with_numbers<'a>(
    alloc: Global,
    left: &'a Ty,
    right: &'a Ty,
) -> Result<(Trees, Numbered<'a>, Numbered<'a>), AllocError>
    requires few_left { nodes left.now < 2 ^ 31 }
    requires few_right { nodes right.now < 2 ^ 31 }
    ensures left { IfOk result (λ t. t.1.ty.now ≡ left.now) }
    ensures right { IfOk result (λ t. t.2.ty.now ≡ right.now) }
    ensures number_left { IfOk result (λ t. HasNumber t.0 t.1) }
    ensures number_right { IfOk result (λ t. HasNumber t.0 t.2) }
{
    let mut trees = Trees::new(alloc);
    let one = with_number(alloc, &mut trees, left)?;
    let other = with_number(alloc, &mut trees, right)?;
    Ok((trees, one, other))
}

/// A type with its number, which is new where its tree is.
fn with_number<'a>(alloc: Global, trees: &mut Trees, t: &'a Ty) -> Result<Numbered<'a>, AllocError>
    requires few { nodes t.now < 2 ^ 31 }
    ensures ty { IfOk result (λ n. n.ty.now ≡ t.now) }
    ensures number { IfOk result (λ n. HasNumber trees.new n) }
    ensures kept { OnOk result (KeepsNumbers trees.old trees.new) }
{
    let number = number_of(alloc, trees, t)?;
    Ok(Numbered { ty: t, number })
}

/// The first part of a type, with its number.
pub fn first_part<'a>(trees: &Trees, t: Numbered<'_>, part: &'a Ty) -> Numbered<'a>
    ensures ty { result.ty.now ≡ part.now }
    ensures number { result.number ≡ first trees.now t.entry.number }
{
    Numbered {
        ty: part,
        number: trees.first(t.number),
    }
}

/// The second part of a type, with its number.
pub fn second_part<'a>(trees: &Trees, t: Numbered<'_>, part: &'a Ty) -> Numbered<'a>
    ensures ty { result.ty.now ≡ part.now }
    ensures number { result.number ≡ second trees.now t.entry.number }
{
    Numbered {
        ty: part,
        number: trees.second(t.number),
    }
}
