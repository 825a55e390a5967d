ghost use Rattle.fst_roundtrip.specs.ReadBack.{ReadBack};
ghost use Rattle.fst_roundtrip.specs.ReadAgain.{ReadAgain};
ghost use Rattle.fst_roundtrip.specs.ReadQuestion.{AskedAgain};

use fst_lexer::{spelled_words, token_words};

/// Reading the text of a type gives the type.
pub fn read_back()
    ensures { ReadBack }
{
    spelled_words();
}

/// Reading the text of a module that was read gives the module at other places, and so the same text.
pub fn read_again()
    ensures { ReadAgain }
{
    spelled_words();
    token_words();
}

/// The text of a question that was read is a question of the same types.
pub fn asked_again()
    ensures { AskedAgain }
{
    spelled_words();
    token_words();
}
