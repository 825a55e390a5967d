ghost use Rattle.fst_grammar.specs.Ends.{GrammarStopsAtEnds, EndsLaw};
ghost use Rattle.fst_grammar.specs.Standing.{StandingIsAgreement};
ghost use Rattle.fst_grammar.specs.Translation.{OneGrammar};

/// Law: two session types within the limit on nodes have at most one grammar.
pub fn one_grammar()
    ensures { OneGrammar }
{}

/// Law: a word stands for a type exactly where the two agree at every depth.
pub fn standing_law()
    ensures { StandingIsAgreement }
{}

/// Law: behind the letters of `Close` and `Wait` a rule's word begins with the dead non-terminal, and behind each other letter it
/// has none but those in front of the dead one.
pub fn stops_law()
    ensures { GrammarStopsAtEnds }
{}

/// Law: where one trace leaves of the words of two session types what performs the same letters, both are empty or neither is.
pub fn ends_law()
    ensures { EndsLaw }
{}
