ghost use Rattle.std.specs.Prelude.{◌≡◌, [], IfOk, option_map, slice_get};
ghost use Rattle.fst_types.specs.Tree as tree;
ghost use Rattle.fst_types.specs.declared.base.Base.TheVariants as base;
ghost use Rattle.fst_types.specs.declared.label.Label.{Label};
ghost use Rattle.fst_lts.specs.Step.{step};
ghost use Rattle.fst_terms.specs.InRange.{maker_of};
ghost use Rattle.fst_fits.specs.Tests.{applies, arrow_of, arrow_parts, base_of, has_some, instantiates, is_arrow, is_below, is_channel, is_global_type, is_instance, is_ordered, is_pair, is_session, is_type, kind_in, operates, pair_parts, receives, receives_pair, same_tree, same_use, sends, types_at};
ghost use Rattle.fst_fits.specs.Fits.{apply_fits, close_fits, fork_fits, if_fits, negate_fits, operate_fits, pair_fits, receive_fits, select_fits, send_fits, seq_fits, wait_fits};

use crate::ready::{is_often, is_plain, is_same, kind_in};
use fst_kinds::subkind;
use fst_lts::{dual, step};
use fst_terms::{GlobalEntry, Module, Op};
use fst_types::{
    Base, Family, Kind, Label, Maker, Name, Prekind, Ty, TyForm, Use, copy, instantiate,
};
use std::alloc::{AllocError, Global};

// Which types of parts fit a row.

fn same_use(u: Use, v: Use) -> bool
    ensures { result ≡ same_use u v }
{
    match (u, v) {
        (Use::Many, Use::Many) => true,
        (Use::Many, Use::Once) => false,
        (Use::Once, Use::Many) => false,
        (Use::Once, Use::Once) => true,
    }
}

/// Whether a type is that of pairs of values of two types.
pub fn pair_fits(t: &Ty, first: &Ty, second: &Ty) -> bool
    ensures { result ≡ pair_fits t.now first.now second.now }
{
    match &t.form {
        TyForm::Pair(a, b) => is_same(a, first) && is_same(b, second),
        _ => false,
    }
}

/// The types of a pair's parts, if a type is that of pairs.
pub fn pair_parts<'a>(t: &'a Ty) -> Option<(&'a Ty, &'a Ty)>
    ensures { option_map (λ p. (p.0.now, p.1.now)) result ≡ pair_parts t.now }
{
    match &t.form {
        TyForm::Pair(a, b) => Some((a, b)),
        _ => None,
    }
}

/// Whether a type is that of functions of this use from the one type to the other.
pub fn arrow_fits(t: &Ty, uses: Use, from: &Ty, to: &Ty) -> bool
    ensures { result ≡ is_arrow (arrow_of t.now) uses from.now to.now }
{
    match &t.form {
        TyForm::Arrow(u, a, b) => same_use(*u, uses) && is_same(a, from) && is_same(b, to),
        _ => false,
    }
}

/// Whether functions of a type take an argument of another and give a result of a third.
pub fn apply_fits(t: &Ty, function: &Ty, argument: &Ty) -> bool
    ensures { result ≡ apply_fits t.now function.now argument.now }
{
    match &function.form {
        TyForm::Arrow(_, from, to) => is_same(from, argument) && is_same(to, t),
        _ => false,
    }
}

fn is_ordered(t: &Ty) -> bool
    ensures { result ≡ is_ordered t.now }
{
    is_plain(t, Base::Int) || is_plain(t, Base::Char)
}

fn operates(op: Op, operand: &Ty, t: &Ty) -> bool
    ensures { result ≡ operates op operand.now t.now }
{
    match op {
        Op::Add | Op::Subtract | Op::Multiply => {
            is_plain(operand, Base::Int) && is_plain(t, Base::Int)
        }
        Op::Equal | Op::Unequal | Op::Less | Op::AtMost | Op::Greater | Op::AtLeast => {
            is_ordered(operand) && is_plain(t, Base::Bool)
        }
        Op::And | Op::Or => is_plain(operand, Base::Bool) && is_plain(t, Base::Bool),
    }
}

/// Whether a sign takes operands of two types, which have to be one, and gives a result of a third.
pub fn operate_fits(op: Op, t: &Ty, first: &Ty, second: &Ty) -> bool
    ensures { result ≡ operate_fits op t.now first.now second.now }
{
    is_same(second, first) && operates(op, first, t)
}

/// Whether a type is that of truth values, and so is that of the negated part.
pub fn negate_fits(t: &Ty, part: &Ty) -> bool
    ensures { result ≡ negate_fits t.now part.now }
{
    is_plain(part, Base::Bool) && is_plain(t, Base::Bool)
}

/// Whether the condition is a truth value, and both branches have the type.
pub fn if_fits(t: &Ty, condition: &Ty, first: &Ty, second: &Ty) -> bool
    ensures { result ≡ if_fits t.now condition.now first.now second.now }
{
    is_plain(condition, Base::Bool) && is_same(t, first) && is_same(second, first)
}

// Whether a type moves by a label to another one.
fn moves_to(alloc: Global, from: &Ty, label: &Label, to: &Ty) -> Result<bool, AllocError>
    ensures { IfOk result (λ b. b ≡ is_type (step from.now label.now) to.now) }
{
    match step(alloc, from, label)? {
        Some(next) => Ok(is_same(&next, to)),
        None => Ok(false),
    }
}

/// Whether a channel of one type is left at another after a value of a third was sent on it.
pub fn send_fits(alloc: Global, t: &Ty, value: &Ty, channel: &Ty) -> Result<bool, AllocError>
    ensures { IfOk result (λ b. b ≡ send_fits t.now value.now channel.now) }
{
    match &value.form {
        TyForm::Plain(base) => moves_to(alloc, channel, &Label::Send(*base), t),
        _ => Ok(false),
    }
}

fn receives(alloc: Global, value: &Ty, channel: &Ty, rest: &Ty) -> Result<bool, AllocError>
    ensures { IfOk result (λ b. b ≡ receives (base_of value.now) channel.now rest.now) }
{
    match &value.form {
        TyForm::Plain(base) => moves_to(alloc, channel, &Label::Receive(*base), rest),
        _ => Ok(false),
    }
}

/// Whether a type is that of a value that is received on a channel of another, with what is left of the channel.
pub fn receive_fits(alloc: Global, t: &Ty, channel: &Ty) -> Result<bool, AllocError>
    ensures { IfOk result (λ b. b ≡ receive_fits t.now channel.now) }
{
    match &t.form {
        TyForm::Pair(value, rest) => receives(alloc, value, channel, rest),
        _ => Ok(false),
    }
}

// Whether a type moves by a label.
fn moves(alloc: Global, from: &Ty, label: &Label) -> Result<bool, AllocError>
    ensures { IfOk result (λ b. b ≡ has_some (step from.now label.now)) }
{
    match step(alloc, from, label)? {
        Some(_) => Ok(true),
        None => Ok(false),
    }
}

/// Whether a type is that of the value without content, and a channel of another can be closed.
pub fn close_fits(alloc: Global, t: &Ty, channel: &Ty) -> Result<bool, AllocError>
    ensures { IfOk result (λ b. b ≡ close_fits t.now channel.now) }
{
    Ok(is_plain(t, Base::Unit) && moves(alloc, channel, &Label::Close)?)
}

/// Whether a type is that of the value without content, and a channel of another can await its closing.
pub fn wait_fits(alloc: Global, t: &Ty, channel: &Ty) -> Result<bool, AllocError>
    ensures { IfOk result (λ b. b ≡ wait_fits t.now channel.now) }
{
    Ok(is_plain(t, Base::Unit) && moves(alloc, channel, &Label::Wait)?)
}

/// Whether a channel of one type is left at another after a branch was selected on it.
pub fn select_fits(alloc: Global, label: &Name, t: &Ty, channel: &Ty) -> Result<bool, AllocError>
    ensures { IfOk result (λ b. b ≡ select_fits label.now t.now channel.now) }
{
    let label = Label::Select(label.copy(alloc)?);
    moves_to(alloc, channel, &label, t)
}

/// Whether a type is that of the value without content, and the values of the part's type may be used often.
pub fn fork_fits(alloc: Global, vars: &[Kind], t: &Ty, part: &Ty) -> Result<bool, AllocError>
    ensures { IfOk result (λ b. b ≡ fork_fits vars.now t.now part.now) }
{
    Ok(is_often(alloc, vars, part)? && is_plain(t, Base::Unit))
}

/// Whether a type is that of the second part, and the values of the first part's type may be used often.
pub fn seq_fits(
    alloc: Global,
    vars: &[Kind],
    t: &Ty,
    first: &Ty,
    second: &Ty,
) -> Result<bool, AllocError>
    ensures { IfOk result (λ b. b ≡ seq_fits vars.now t.now first.now second.now) }
{
    Ok(is_often(alloc, vars, first)? && is_same(t, second))
}

fn is_session(alloc: Global, t: &Ty) -> Result<bool, AllocError>
    ensures { IfOk result (λ b. b ≡ is_session (kind_in [] t.now)) }
{
    match kind_in(alloc, &[], t)? {
        Some(kind) => Ok(kind.prekind == Prekind::Session),
        None => Ok(false),
    }
}

/// Whether a type is that of both ends of a channel of the module's type with this number.
pub fn channel_fits(alloc: Global, types: &[Ty], k: u32, t: &Ty) -> Result<bool, AllocError>
    ensures { IfOk result (λ b. b ≡ is_channel (slice_get types.now k) t.now) }
{
    let Some(end) = type_at(types, k) else {
        return Ok(false);
    };
    if !is_session(alloc, end)? {
        return Ok(false);
    }
    let other = dual(alloc, end)?;
    Ok(pair_fits(t, end, &other))
}

// The type with this number, if it is there.
pub fn type_at<'a>(types: &'a [Ty], k: u32) -> Option<&'a Ty>
    ensures { option_map (λ t. t.now) result ≡ slice_get types.now k }
{
    types.get(k as usize)
}

/// Whether the type with this number is there, and is this one.
pub fn is_at(types: &[Ty], k: u32, t: &Ty) -> bool
    ensures { result ≡ is_type (slice_get types.now k) t.now }
{
    match type_at(types, k) {
        Some(own) => is_same(own, t),
        None => false,
    }
}

/// Whether a type is the data type with this number.
pub fn is_named(t: &Ty, n: u32) -> bool
    ensures { result ≡ same_tree t.now (tree.named n) }
{
    let named = Ty {
        form: TyForm::Named(n),
    };
    is_same(t, &named)
}

/// The constructor with this number of the data type with this number.
pub fn maker_at<'a>(families: &'a [Family], n: u32, k: u32) -> Option<&'a Maker>
    ensures { option_map (λ o. o.now) result ≡ maker_of (slice_get families.now n) k }
{
    match families.get(n as usize) {
        Some(family) => family.makers.get(k as usize),
        None => None,
    }
}

pub fn types_at(alloc: Global, types: &[Ty], places: &[u32]) -> Result<Option<Vec<Ty>>, AllocError>
    ensures { IfOk result (λ o. option_map (λ ts. ts.items) o ≡ types_at types.now places.now) }
{
    let mut found = Vec::new(alloc);
    for k in places {
        match type_at(types, *k) {
            Some(t) => found.push(copy(alloc, t)?)?,
            None => return Ok(None),
        }
    }
    Ok(Some(found))
}

fn is_below(alloc: Global, vars: &[Kind], t: &Ty, kind: Kind) -> Result<bool, AllocError>
    ensures { IfOk result (λ b. b ≡ is_below (kind_in vars.now t.now) kind) }
{
    match kind_in(alloc, vars, t)? {
        Some(own) => Ok(subkind(own, kind)),
        None => Ok(false),
    }
}

#[tactic(auto, using(crate::proofs::TestLaws::wrong_length))]
fn instantiates(
    alloc: Global,
    vars: &[Kind],
    kinds: &[Kind],
    args: &[Ty],
) -> Result<bool, AllocError>
    ensures { IfOk result (λ b. b ≡ instantiates vars.now kinds.now args.now) }
{
    if kinds.len() != args.len() {
        return Ok(false);
    }
    for (i, kind) in kinds.iter().enumerate() {
        if !is_below(alloc, vars, &args[i], *kind)? {
            return Ok(false);
        }
    }
    Ok(true)
}

/// Whether a type is that of a global with these type arguments.
pub fn global_fits(
    alloc: Global,
    m: &Module,
    vars: &[Kind],
    k: u32,
    places: &[u32],
    t: &Ty,
) -> Result<bool, AllocError>
    ensures { IfOk result (λ b. b ≡ is_global_type vars.now m.now.types.items (slice_get
        m.now.globals.items k) places.now t.now) }
{
    let Some(global) = m.globals.get(k as usize) else {
        return Ok(false);
    };
    let Some(signature) = type_at(&m.types, global.signature) else {
        return Ok(false);
    };
    let Some(args) = types_at(alloc, &m.types, places)? else {
        return Ok(false);
    };
    if !instantiates(alloc, vars, &global.kinds, &args)? {
        return Ok(false);
    }
    let instance = instantiate(alloc, signature, &args)?;
    Ok(is_same(t, &instance))
}
