ghost use Rattle.std.specs.Prelude.{◌≡◌, ◌++◌, List, OnOk, IsFalse};
ghost use Rattle.fst_terms.specs.CoreTree.{CoreTree};
ghost use Rattle.fst_terms.specs.ModelCoreView.{cores_of, core_arms_of};
ghost use Rattle.fst_terms.specs.Around.{has_first, wrap};
ghost use Rattle.fst_derivations.specs.Modules.{Standing, all_open, types_in, types_in_all, types_in_arms};

use fst_terms::{Arm, Form, Step, Term, pop_step, spine_of};
use std::alloc::{AllocError, Global};

// A type that stands in a term, by its number, and whether the variables of its equation's
// signature are in scope there.
pub(crate) type Standing = (u32, bool);

fn add_open(numbers: &[u32], out: &mut Vec<Standing>) -> Result<(), AllocError>
    ensures { OnOk result (out.new.items ≡ out.old.items ++ all_open numbers.now) }
{
    for number in numbers {
        out.push((*number, true))?;
    }
    Ok(())
}

#[cycle(standing)]
fn add_two(
    alloc: Global,
    first: &Term,
    second: &Term,
    out: &mut Vec<Standing>,
) -> Result<(), AllocError>
    ensures { OnOk result (out.new.items ≡
        out.old.items ++ (types_in first.now ++ types_in second.now)) }
{
    add_standing(alloc, first, out)?;
    add_standing(alloc, second, out)
}

#[cycle(standing)]
#[tactic(auto, using(fst_terms::proofs::Laws::cores_height_at))]
fn add_all(alloc: Global, terms: &[Term], out: &mut Vec<Standing>) -> Result<(), AllocError>
    ensures { OnOk result (out.new.items ≡ out.old.items ++ types_in_all (cores_of terms.now)) }
{
    for term in terms {
        add_standing(alloc, term, out)?;
    }
    Ok(())
}

#[cycle(standing)]
#[tactic(auto, using(fst_terms::proofs::Laws::core_arms_height_at))]
fn add_arms(alloc: Global, arms: &[Arm], out: &mut Vec<Standing>) -> Result<(), AllocError>
    ensures { OnOk result (out.new.items ≡
        out.old.items ++ types_in_arms (core_arms_of arms.now)) }
{
    for arm in arms {
        add_standing(alloc, &arm.body, out)?;
    }
    Ok(())
}

// The types that stand in a term that is no operation and no application.
#[cycle(standing)]
fn add_head(alloc: Global, head: &Term, out: &mut Vec<Standing>) -> Result<(), AllocError>
    requires { IsFalse (has_first head.now) }
    ensures { OnOk result (out.new.items ≡ out.old.items ++ types_in head.now) }
{
    match &head.form {
        Form::Local(_) => Ok(()),
        Form::GlobalUse(_, arguments) => add_open(arguments, out),
        Form::Int(_) => Ok(()),
        Form::Bool(_) => Ok(()),
        Form::Char(_) => Ok(()),
        Form::Unit => Ok(()),
        Form::Pair(first, second) => add_two(alloc, first, second, out),
        Form::Make(_, _, arguments) => add_all(alloc, arguments, out),
        Form::Lambda(_, number, _, body) => {
            out.push((*number, true))?;
            add_standing(alloc, body, out)
        }
        Form::Apply(_, _) => unreachable!(),
        Form::Let(_, value, body) => add_two(alloc, value, body, out),
        Form::Split(_, _, value, body) => add_two(alloc, value, body, out),
        Form::If(test, yes, no) => {
            add_standing(alloc, test, out)?;
            add_two(alloc, yes, no, out)
        }
        Form::Case(value, arms) => {
            add_standing(alloc, value, out)?;
            add_arms(alloc, arms, out)
        }
        Form::Operate(_, _, _) => unreachable!(),
        Form::Not(body) => add_standing(alloc, body, out),
        Form::New(number) => {
            out.push((*number, false))?;
            Ok(())
        }
        Form::Send(value, channel) => add_two(alloc, value, channel, out),
        Form::Receive(channel) => add_standing(alloc, channel, out),
        Form::Close(channel) => add_standing(alloc, channel, out),
        Form::Wait(channel) => add_standing(alloc, channel, out),
        Form::Select(_, channel) => add_standing(alloc, channel, out),
        Form::Match(channel, arms) => {
            add_standing(alloc, channel, out)?;
            add_arms(alloc, arms, out)
        }
        Form::Fork(body) => add_standing(alloc, body, out),
        Form::Then(first, second) => add_two(alloc, first, second, out),
    }
}

// The types that stand in the second part of a step, behind those of any first part.
#[cycle(standing)]
fn add_step(alloc: Global, step: Step<'_>, out: &mut Vec<Standing>) -> Result<(), AllocError>
    ensures { OnOk result ((before : List Standing) (t : CoreTree) →
        out.old.items ≡ before ++ types_in t →
        out.new.items ≡ before ++ types_in (wrap step.entry t)) }
{
    match step {
        Step::Operate(_, _, second) => add_standing(alloc, second, out),
        Step::Apply(_, second) => add_standing(alloc, second, out),
    }
}

// The types that stand in a term, behind those that are there.
#[cycle(standing)]
pub(crate) fn add_standing(
    alloc: Global,
    term: &Term,
    out: &mut Vec<Standing>,
) -> Result<(), AllocError>
    ensures { OnOk result (out.new.items ≡ out.old.items ++ types_in term.now) }
{
    let mut spine = spine_of(alloc, term)?;
    add_head(alloc, spine.head, out)?;
    while let Some(step) = pop_step(&mut spine.steps) {
        add_step(alloc, step, out)?;
    }
    Ok(())
}
