ghost use Rattle.fst_breadth.specs.Answer.{OneAnswer};
ghost use Rattle.fst_breadth.specs.Reached.{ArePlacesDetermined};

/// Law: two lists of first pairs have the same pair, by the same trace, at each place that both have.
pub fn first_pairs_are_determined()
    ensures { ArePlacesDetermined }
{}

/// Law: a question of two words within a budget has at most one answer.
pub fn search_is_determined()
    ensures { OneAnswer }
{}
