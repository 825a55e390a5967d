ghost use Rattle.std.specs.Prelude.{◌≡◌};
ghost use Rattle.std.specs.List.{list_any};
ghost use Rattle.std.specs.Str.{bytes_eq};
ghost use Rattle.fst_lexer.specs.Classes.{is_reserved, lower_words, upper_words};
ghost use Rattle.fst_lexer.specs.Tokens.{letters};

use crate::pieces::Placed;

/// Whether the characters are these ASCII ones.
fn spells(word: &[Placed], text: &[u8]) -> bool
    ensures { result ≡ bytes_eq (letters word.now) text.now }
{
    match (word, text) {
        ([], []) => true,
        ([p, ps @ ..], [b, bs @ ..]) => p.ch as u32 == u32::from(*b) && spells(ps, bs),
        _ => false,
    }
}

fn is_lower_word(word: &[Placed]) -> bool
    ensures { result ≡ list_any (bytes_eq (letters word.now)) lower_words }
{
    spells(word, b"data")
        || spells(word, b"type")
        || spells(word, b"forall")
        || spells(word, b"rec")
        || spells(word, b"new")
        || spells(word, b"send")
        || spells(word, b"receive")
        || spells(word, b"select")
        || spells(word, b"match")
        || spells(word, b"with")
        || spells(word, b"case")
        || spells(word, b"of")
        || spells(word, b"let")
        || spells(word, b"in")
        || spells(word, b"if")
        || spells(word, b"then")
        || spells(word, b"else")
        || spells(word, b"fork")
        || spells(word, b"not")
        || spells(word, b"close")
        || spells(word, b"wait")
}

fn is_upper_word(word: &[Placed]) -> bool
    ensures { result ≡ list_any (bytes_eq (letters word.now)) upper_words }
{
    spells(word, b"True")
        || spells(word, b"False")
        || spells(word, b"Int")
        || spells(word, b"Bool")
        || spells(word, b"Char")
        || spells(word, b"Skip")
        || spells(word, b"Close")
        || spells(word, b"Wait")
}

/// Whether a name is a reserved word.
pub(crate) fn is_reserved(word: &[Placed]) -> bool
    ensures { result ≡ is_reserved (letters word.now) }
{
    is_lower_word(word) || is_upper_word(word)
}
