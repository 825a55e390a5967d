use fst_words::Word;

/// Two words.
#[derive(Drop)]
pub struct Pair {
    pub left: Word,
    pub right: Word,
}

/// What makes another word of a word. Places and pairs are counted from 0.
#[derive(Drop)]
pub enum Rewrite {
    /// The right word of the pair takes the place of the left one, which stands at this place.
    Forth { at: u64, pair: u32 },
    /// The left word of the pair takes the place of the right one, which stands at this place.
    Back { at: u64, pair: u32 },
    /// This word is cut, which is all that stands behind the marked non-terminal at this place.
    Cut { at: u64, tail: Word },
    /// This word comes behind the last non-terminal, which is marked and stands at this place.
    Grow { at: u64, tail: Word },
}

/// Rewrites, one after the other.
#[derive(Drop)]
pub struct Chain {
    pub steps: Vec<Rewrite>,
}

/// The pairs of a basis, and the chains that show it to be one: the first joins the two words in question; then, pair by pair and
/// letter by letter, each joins what the pair's words become by the letter.
#[derive(Drop)]
pub struct Proof {
    pub basis: Vec<Pair>,
    pub chains: Vec<Chain>,
}
