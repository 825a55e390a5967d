ghost use Rattle.std.specs.Prelude.{◌≡◌, ◌≤◌, ◌*◌, length, IfSome};
ghost use Rattle.fst_base.specs.Limits.{greatest_number, most_bytes};
ghost use Rattle.fst_lexer.specs.Tokens.{begins_upper, byte_count, character_of, ends_line, name_kind, number_of, place, token_of};

use crate::classes::{escaped_character, is_feed, is_upper};
use crate::pieces::{Piece, Placed};
use crate::token::{LexFault, Token, TokenKind};
use crate::words::is_reserved;
use fst_base::{GREATEST_NUMBER, LONGEST_NAME};

pub(crate) fn place(text: &[Placed]) -> u32
    ensures { result ≡ place text.now }
{
    match text {
        [] => 0,
        [first, ..] => first.at,
    }
}

fn byte_count(word: &[Placed]) -> usize
    requires { length word.now ≤ most_bytes }
    ensures value { result ≡ byte_count word.now }
    ensures bound { result ≤ 4 * length word.now }
{
    let mut count = 0;
    for p in word {
        count += p.ch.len_utf8();
    }
    count
}

fn number_of(word: &[Placed]) -> Option<u64>
    ensures value { result ≡ number_of word.now }
    ensures bound { IfSome result (λ n. n ≤ greatest_number) }
{
    let greatest = u128::from(GREATEST_NUMBER);
    let mut value: u64 = 0;
    for p in word {
        let next = u128::from(value) * 10 + u128::from((p.ch as u32).saturating_sub('0' as u32));
        if next > greatest {
            return None;
        }
        value = next as u64;
    }
    Some(value)
}

#[tactic(auto, unfolding(fst_base::specs::Choice::choose))]
fn character_of(word: &[Placed]) -> char
    ensures { result ≡ character_of word.now }
{
    match word {
        [_, c, e, ..] => {
            if c.ch == '\\' {
                escaped_character(e.ch)
            } else {
                c.ch
            }
        }
        _ => '\0',
    }
}

fn begins_upper(word: &[Placed]) -> bool
    ensures { result ≡ begins_upper word.now }
{
    match word {
        [] => false,
        [first, ..] => is_upper(first.ch),
    }
}

/// Whether a line begins behind these characters.
pub(crate) fn ends_line(word: &[Placed]) -> bool
    ensures { result ≡ ends_line word.now }
{
    match word {
        [] => false,
        [.., last] => is_feed(last.ch),
    }
}

#[tactic(auto, unfolding(fst_base::specs::Choice::choose))]
fn name_kind(word: &[Placed]) -> TokenKind
    ensures { result ≡ name_kind word.now }
{
    if is_reserved(word) {
        TokenKind::Reserved
    } else if begins_upper(word) {
        TokenKind::Upper
    } else {
        TokenKind::Lower
    }
}

/// The token of a piece, where it is one.
#[tactic(auto, unfolding(fst_base::specs::Choice::choose, crate::specs::Tokens::token_of))]
pub(crate) fn token_of(
    piece: Piece,
    word: &[Placed],
    first: bool,
) -> Result<Option<Token>, LexFault>
    requires { length word.now ≤ most_bytes }
    ensures { result ≡ token_of piece word.now first }
{
    let at = place(word);
    let count = byte_count(word);
    let kind = match piece {
        Piece::Blank | Piece::Comment => return Ok(None),
        Piece::Sign => TokenKind::Sign,
        Piece::Quoted => TokenKind::Character(character_of(word)),
        Piece::Name => {
            if count > LONGEST_NAME {
                return Err(LexFault::LongName(at));
            }
            name_kind(word)
        }
        Piece::Digits => match number_of(word) {
            None => return Err(LexFault::WideNumber(at)),
            Some(n) => TokenKind::Number(n as i64),
        },
    };
    Ok(Some(Token {
        kind,
        at,
        len: count as u32,
        first_column: first,
    }))
}
