ghost use Rattle.fst_merge.specs.LeastEvents.{OneListLaw, SortedLaw};
ghost use Rattle.fst_merge.specs.RunNames.{NamesLaw};

/// The events of whichever run of a module that has derivations, where it comes to an end, are those of its least run, with the
/// same stamps: sorted they are the module's events.
pub fn sorted_law()
    ensures { SortedLaw }
{}

/// A module that has derivations has one list of events.
pub fn one_list_law()
    ensures { OneListLaw }
{}

/// Wherever a run leads, each task has made as many channels and forked as many tasks as its events say, so that the names in
/// their text are those that the run gives.
pub fn names_law()
    ensures { NamesLaw }
{}
