ghost use Rattle.fst_safety.specs.Diamond.{DiamondLaw, OneEnd, OneOrder, SameEvents};
ghost use Rattle.fst_safety.specs.Going.{EndsAreHeld, StayTyped};
ghost use Rattle.fst_safety.specs.Safety.{DerivedIsSafe};
ghost use Rattle.fst_safety.specs.Sound.{SoundStaysSafe};

use crate::tasks::TypedTask;

/// A module that has derivations is safe: whatever happens in a run of it, in any order, each task asks for something that
/// the residuals of its ends allow, each history is a trace of its channel's type, which is a closed well-formed session type,
/// and each end that isn't spent is held by one task, once; and where the task of `main` has ended, its value is one of
/// `main`'s declared type, and no function and no end stands in it.
pub fn safety_law()
    ensures { DerivedIsSafe }
{}

/// What happens from a sound configuration of such a module on is safe in the same way: one in which each task has a type, `main`
/// that of its declaration, both sides of each channel fit, and no end is lost or held twice.
pub fn stays_law()
    ensures { SoundStaysSafe }
{}

/// Where two different events are possible after a run of a module that has derivations, each stays possible after the other
/// and writes the same tasks and channels, and both orders lead to the same configuration, clocks and stamps included.
pub fn diamond_law()
    ensures { DiamondLaw }
{}

/// Where a run of a module that has derivations comes to a configuration in which no event is possible, no run has more
/// events, and each that comes to such a configuration has as many and leads to the same one.
pub fn one_end_law()
    ensures { OneEnd }
{}

/// Runs of a module that has derivations which come to such a configuration have the same events with the same stamps, each as
/// often.
pub fn same_events_law()
    ensures { SameEvents }
{}

/// So their events in order, by their stamps and then by the paths of their tasks, are one list.
pub fn one_order_law()
    ensures { OneOrder }
{}

/// A task that is typed over what its own ends know stays so, whatever it is told: after a step, a new channel, a fork, a try at
/// an end, and after what it sent was received or it received something. What its log gains is what its ends gain, a forked task
/// gets the ends that stand in its state, and no spent end is lost. Nothing is asked of other tasks.
#[tactic(auto, using(crate::proofs::Going::stay_typed))]
pub fn typed_law()
    ensures { StayTyped }
{}

/// The ends that the variables of a forked task have, as the machine lists them, are those that its state holds.
pub fn ends_law()
    ensures { EndsAreHeld }
{}

/// A task may go from one thread to another.
pub fn send_law() {
    goes_to_threads::<TypedTask>()
}

fn goes_to_threads<T: Send>() {}
