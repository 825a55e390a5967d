ghost use Rattle.std.specs.Prelude.{◌≡◌, ◌+◌, ◌<◌, ◌≤◌, length, not, IfSome};
ghost use Rattle.std.specs.List.{prefix_len};
ghost use Rattle.fst_lexer.specs.Classes.{continues_name, is_digit, is_feed};
ghost use Rattle.fst_lexer.specs.Reading.{begins_comment, escaped_at, piece_at, quoted_at, sign_at};

use crate::classes::{
    continues_name, is_blank, is_digit, is_escape, is_feed, is_long, is_plain, is_quote, is_short,
    starts_name,
};

/// A character, and at which byte it begins.
#[derive(Clone, Copy, Debug, PartialEq, Eq)]
pub(crate) struct Placed {
    pub(crate) at: u32,
    pub(crate) ch: char,
}

/// What a piece of a text is.
#[derive(Clone, Copy, Debug, PartialEq, Eq)]
pub(crate) enum Piece {
    Blank,
    Comment,
    Name,
    Digits,
    Quoted,
    Sign,
}

fn name_len(cs: &[Placed]) -> usize
    ensures value { result ≡ prefix_len (λ p. continues_name p.ch) cs.now }
    ensures bound { result ≤ length cs.now }
{
    cs.iter().take_while(|p| continues_name(p.ch)).count()
}

fn digits_len(cs: &[Placed]) -> usize
    ensures value { result ≡ prefix_len (λ p. is_digit p.ch) cs.now }
    ensures bound { result ≤ length cs.now }
{
    cs.iter().take_while(|p| is_digit(p.ch)).count()
}

fn line_len(cs: &[Placed]) -> usize
    ensures value { result ≡ prefix_len (λ p. not (is_feed p.ch)) cs.now }
    ensures bound { result ≤ length cs.now }
{
    cs.iter().take_while(|p| !is_feed(p.ch)).count()
}

#[tactic(auto, unfolding(fst_base::specs::Choice::choose))]
fn sign_at(cs: &[Placed]) -> Option<(Piece, usize)>
    ensures value { result ≡ sign_at cs.now }
    ensures bound { IfSome result (λ r. (0 < r.1) × (r.1 ≤ length cs.now)) }
{
    match cs {
        [] => None,
        [a] => is_short(a.ch).then_some((Piece::Sign, 1)),
        [a, b, ..] => {
            if is_long(a.ch, b.ch) {
                Some((Piece::Sign, 2))
            } else if is_short(a.ch) {
                Some((Piece::Sign, 1))
            } else {
                None
            }
        }
    }
}

#[tactic(auto, unfolding(fst_base::specs::Choice::choose))]
fn escaped_at(cs: &[Placed]) -> Option<(Piece, usize)>
    ensures value { result ≡ escaped_at cs.now }
    ensures bound { IfSome result (λ r. (0 < r.1) × (r.1 ≤ length cs.now + 1)) }
{
    match cs {
        [c, e, b, ..] => {
            if c.ch == '\\' && is_escape(e.ch) && is_quote(b.ch) {
                Some((Piece::Quoted, 4))
            } else {
                None
            }
        }
        _ => None,
    }
}

#[tactic(auto, unfolding(fst_base::specs::Choice::choose))]
fn quoted_at(cs: &[Placed]) -> Option<(Piece, usize)>
    ensures value { result ≡ quoted_at cs.now }
    ensures bound { IfSome result (λ r. (0 < r.1) × (r.1 ≤ length cs.now + 1)) }
{
    match cs {
        [c, b, ..] => {
            if is_plain(c.ch) && is_quote(b.ch) {
                Some((Piece::Quoted, 3))
            } else {
                escaped_at(cs)
            }
        }
        _ => None,
    }
}

fn begins_comment(cs: &[Placed]) -> bool
    ensures { result ≡ begins_comment cs.now }
{
    match cs {
        [a, b, ..] => a.ch == '-' && b.ch == '-',
        _ => false,
    }
}

/// The longest piece at the front of a text, and how many characters it has.
#[tactic(auto, unfolding(fst_base::specs::Choice::choose, crate::specs::Reading::piece_at))]
pub(crate) fn piece_at(cs: &[Placed]) -> Option<(Piece, usize)>
    ensures value { result ≡ piece_at cs.now }
    ensures bound { IfSome result (λ r. (0 < r.1) × (r.1 ≤ length cs.now)) }
{
    match cs {
        [] => None,
        [c, rest @ ..] => {
            if is_blank(c.ch) {
                Some((Piece::Blank, 1))
            } else if starts_name(c.ch) {
                Some((Piece::Name, 1 + name_len(rest)))
            } else if is_digit(c.ch) {
                Some((Piece::Digits, 1 + digits_len(rest)))
            } else if is_quote(c.ch) {
                quoted_at(rest)
            } else if begins_comment(cs) {
                Some((Piece::Comment, 1 + line_len(rest)))
            } else {
                sign_at(cs)
            }
        }
    }
}
