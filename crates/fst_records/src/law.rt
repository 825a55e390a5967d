ghost use Rattle.fst_records.specs.Laws.{ApartLaw, CountLaw, EntryLaw, EventsLaw, ExtendsLaw, GatherLaw, RunLaw, RunsLaw, StampLaw};

/// In a record that fits no two tasks have one path and no two channels one name; what a log says that was sent or received at an
/// end stands in its channel's history, with its stamp and the task's clock; and each entry of a history was exchanged by a task
/// at the left end and by one at the right end, just one of which sent it.
pub fn entry_law()
    ensures { EntryLaw }
{}

/// In a record that fits no clock of a task, no count of the tasks and channels that a task has made, no number of a channel and
/// no stamp of an entry is over the number of the record's events: the entries for what a task does alone, and the entries of
/// the histories.
pub fn stamp_law()
    ensures { StampLaw }
{}

/// Where an event is possible in the configuration of a record that fits, and nothing is wrong before and after it, there is a
/// record that fits with one event more, whose configuration is the one after the event, and whose logs have gained what the
/// event gives them.
pub fn extends_law()
    ensures { ExtendsLaw }
{}

/// So what a run leads to from the configuration of a record that fits is the configuration of one with as many more events.
pub fn runs_law()
    ensures { RunsLaw }
{}

/// The events of a record that fits, in an order in which their stamps don't fall, are a run with these stamps, which leads from
/// `main` to the tasks and histories of the record.
pub fn run_law()
    ensures { RunLaw }
{}

/// Each record that fits has its events in an order in which their stamps don't fall.
pub fn events_law()
    ensures { EventsLaw }
{}

/// They are as many as the entries for what tasks do alone and those of the histories.
pub fn count_law()
    ensures { CountLaw }
{}

/// No two events of a record that fits have one stamp and one path, where two tasks that meet count by the lesser of their paths.
pub fn apart_law()
    ensures { ApartLaw }
{}

/// The events that the parts of a record's logs begin, each of them what one task does alone or sends, with the task that got it,
/// are the record's events.
pub fn gather_law()
    ensures { GatherLaw }
{}
