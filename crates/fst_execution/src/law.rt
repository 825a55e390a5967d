ghost use Rattle.fst_execution.specs.Execution.{AnswersAreSound};

/// The report that the least run of a safe module answers is sound: each of its channels has a closed well-formed session type, of
/// which its history is a trace; and main's value, if it is there, is one of main's type, in which no function and no end stands.
pub fn sound_law()
    ensures { AnswersAreSound }
{}
