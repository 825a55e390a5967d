ghost use Rattle.std.specs.Prelude.{◌≡◌};
ghost use Rattle.std.specs.Process.{exit_status};
ghost use Rattle.fst_command.specs.Status.{number_of};

use std::alloc::AllocError;
use std::process::ExitCode;

/// How a run ended.
#[derive(Clone, Copy, Debug, PartialEq, Eq)]
pub enum Status {
    /// The command did its work.
    Done = 0,
    /// The input is refused.
    Refused = 1,
    /// The words aren't those of a command; nothing was read.
    Words = 2,
    /// The run came to its end, and tasks are left that wait.
    Waiting = 3,
    /// The run has more events than its steps.
    OutOfSteps = 4,
    /// The question has more pairs than the budget, as many as the budget show no difference, and its cuts are no basis within it.
    Undecided = 5,
    /// A read failed; nothing was written.
    ReadFault = 6,
    /// A write failed; a proper prefix of the text was written.
    WriteFault = 7,
    /// The input is over a limit.
    Limit = 8,
    /// There was no memory; a prefix of the text was written.
    Memory = 9,
}

impl From<AllocError> for Status {
    ghost use Rattle.fst_command.specs.declared.status.Status.TheVariants.{Memory};

    ghost from_gives = { λ _ s. s ≡ Memory };

    fn from(_error: AllocError) -> Status {
        Status::Memory
    }
}

impl Status {
    /// The number of the status.
    pub fn number(self) -> u8
        ensures { result ≡ number_of self }
    {
        self as u8
    }

    /// What the process ends with: the number of the status.
    pub fn exit_code(self) -> ExitCode
        ensures { exit_status result ≡ number_of self }
    {
        ExitCode::from(self.number())
    }
}
