ghost use Rattle.fst_machine.specs.Standing.{CodeStands, StepsEnd};

/// The code of a program stands for it: run from the place where a global starts, it asks for what the global's body asks
/// for, and so after each answer, for ever. And between two requests it makes finitely many steps.
#[tactic(auto, using(crate::proofs::Wholes::code_stands, crate::proofs::Wholes::steps_end))]
pub fn code_law()
    ensures stands { CodeStands }
    ensures ends { StepsEnd }
{}
