ghost use Rattle.std.specs.Prelude.{◌≡◌, ◌<◌, IfOk, length};
ghost use Rattle.fst_shared.specs.Shared.{word_of};

use crate::words::SharedWords;
use fst_words::Word;
use std::alloc::{AllocError, Global};
use std::marker::Model;
use std::rc::Rc;

/// A word of a table that others share: contracts see the list of its non-terminals.
#[derive(Drop)]
pub struct SharedWord {
    words: Rc<SharedWords>,
    number: u32,
}

impl Model for SharedWord {
    ghost use Rattle.std.specs.Prelude.{List, ℕ, length, ◌<◌};
    ghost use Rattle.fst_shared.specs.Shared.{word_of};

    ghost Value = { List ℕ };

    ghost view = { λ w. word_of w.words.value w.number };

    ghost invariant = { λ w. w.number < length w.words.value };
}

impl SharedWord {
    /// The word with this number.
    pub fn new(words: &Rc<SharedWords>, number: u32) -> Result<SharedWord, AllocError>
        requires { number < length words.now.value }
        ensures { IfOk result (λ w. w ≡ word_of words.now.value number) }
    {
        Ok(SharedWord {
            words: words.clone()?,
            number,
        })
    }

    /// The word, written out.
    pub fn to_word(&self, alloc: Global) -> Result<Word, AllocError>
        ensures { IfOk result (λ w. w ≡ self.now) }
    {
        self.words.to_word(alloc, self.number)
    }
}

/// Two words, one of each side.
#[derive(Drop)]
pub struct SharedPair {
    pub left: SharedWord,
    pub right: SharedWord,
}
