ghost use Rattle.fst_worker.specs.Events.{AnswerLaw, LeastLaw};
ghost use Rattle.fst_worker.specs.Laws.{ApartLaw, BeginLaw, PairLaw, PoolLaw, RecordLaw, WentLaw};
ghost use Rattle.fst_worker.specs.Configs.{SoundLaw};
ghost use Rattle.fst_worker.specs.Resumes.{OrderLaw, ResumeLaw, RightLaw, TellLaw};

/// The task of `main` fits a module that has derivations at the beginning, and it is all there is of the run.
pub fn begin_law()
    ensures { BeginLaw }
{}

/// Tasks that go on by turns alone fit their module again, nothing of the run is left out, and each of them is there with a log
/// that is as before, with what it has gained.
pub fn went_law()
    ensures { WentLaw }
{}

/// No two tasks of a run have one path, no two channels that their logs make have one name, and each end stands at most once
/// among the open and the spent ends of all tasks.
pub fn apart_law()
    ensures { ApartLaw }
{}

/// With each end of a task of a run the other end of its channel is one of some task, in the same cell and with the same
/// declared type; and so are a left and a right end of one channel, whichever they are.
pub fn pair_law()
    ensures { PairLaw }
{}

/// While the channels of a run are closed one after the other, each end that is left has the other end of its channel among those
/// that are left, and any end there with that name is in the same cell and has the same declared type.
pub fn pool_law()
    ensures { PoolLaw }
{}

/// Where the two ends of each channel were closed and each task whose offer was taken is told so, the logs of all tasks and the
/// closed histories are a record that fits the module.
pub fn record_law()
    ensures { RecordLaw }
{}

/// Where the two ends of each channel were closed and each task whose offer was taken is told so, the tasks and the closed channels
/// are a sound configuration of the module.
pub fn sound_law()
    ensures { SoundLaw }
{}

/// No run from a sound configuration of a module that has derivations goes wrong.
pub fn right_law()
    ensures { RightLaw }
{}

/// Where the two ends of each channel of a run were closed and each task whose offer was taken is told so, the machine that goes on
/// can be given the tasks and the closed channels, and none of their numbers is over the greatest clock.
pub fn resume_law()
    ensures { ResumeLaw }
{}

/// The closed channels of a run are in the order in which each task has made them where their names rise.
pub fn order_law()
    ensures { OrderLaw }
{}

/// Where all channels of a run were closed, a task whose offer was taken can be told so: the answer leads to a state that has a next
/// request, and the task that has gone on is that of the thread.
pub fn tell_law()
    ensures { TellLaw }
{}

/// What the least run comes to from the configuration of a record that fits, where the record's events count among the steps,
/// is the report of a record that fits in whose configuration no event is possible, or that a record that fits has more events
/// than steps.
pub fn answer_law()
    ensures { AnswerLaw }
{}

/// Where the module has derivations, that is what its least run comes to from the beginning of `main`: since all runs that come to
/// an end lead to one configuration, it makes no difference how the events of the record stood to one another.
pub fn least_law()
    ensures { LeastLaw }
{}

/// A share may go from one thread to another.
pub fn send_law() {
    goes_to_threads::<crate::shares::Share>()
}

fn goes_to_threads<T: Send>() {}
