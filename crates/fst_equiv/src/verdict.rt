use fst_basis::Proof;
use fst_shared::SharedPair;
use fst_types::{Label, Side};
use fst_words::{Grammar, Word};

/// What shows that two types are equivalent.
#[derive(Drop)]
pub enum Certificate {
    /// The grammar of the two types, their pruned words, and all pairs of different pruned words that these reach, in
    /// the order of the least traces that reach them (Almeida, Mordido, Vasconcelos, TACAS 2020).
    Visited(Grammar, Word, Word, Vec<SharedPair>),
    /// The grammar of the two types, their pruned words, and a basis with chains that show that the words perform the same traces
    /// (Christensen, Hüttel, Stirling, 1995): the cuts that the words lead to, or what is left of the candidates of a normed grammar
    /// (Hirshfeld, Jerrum, Moller, 1996).
    Basis(Grammar, Word, Word, Proof),
}

/// Whether two types are equivalent.
#[derive(Drop)]
pub enum Verdict {
    /// They agree at every depth, as the certificate shows.
    Yes(Certificate),
    /// The least trace that exactly one side performs, and that side.
    No(Vec<Label>, Side),
    /// There are more pairs than the budget, and no basis within it, and the grammar isn't normed within it: the grammar, and as many
    /// pairs as the budget, of which none shows a difference.
    Undecided(Grammar, Vec<SharedPair>),
}
