//! Numbers in a text.

ghost use Rattle.std.specs.Prelude.{◌≡◌, ◌≢◌, ◌<◌, ◌≤◌, ◌++◌, ◌∷◌, [], ℕ, List, All, IfNone, IfOk, IfSome, decimal, drop, length, take};
ghost use Rattle.fst_cert.specs.Certificates.{IsWord};
ghost use Rattle.fst_cert.specs.Texts.{IsEnd, listed};

use memchr::memchr;
use std::alloc::{AllocError, Global};

// What stands in front of the first such byte, and what stands behind it, or none where there is no such byte.
pub(crate) fn cut_at(text: &[u8], byte: u8) -> Option<(&[u8], &[u8])>
    ensures some { IfSome result (λ parts. (text.now ≡ parts.0.now ++ byte ∷ parts.1.now) ×
        All (λ b. b ≢ byte) parts.0.now) }
    ensures none { IfNone result (All (λ b. b ≢ byte) text.now) }
{
    let at = memchr(byte, text)?;
    Some((&text[..at], &text[at + 1..]))
}

// The number that a text is, written as a number is printed, if that is at most the greatest.
pub(crate) fn read_number(text: &[u8], greatest: u64) -> Option<u64>
    ensures some { IfSome result (λ n. (text.now ≡ decimal n) × (n ≤ greatest)) }
    ensures none { IfNone result ((n : ℕ) → n ≤ greatest → text.now ≡ decimal n → ⊥) }
{
    let number = str::from_utf8(text).ok()?.parse::<u64>().ok()?;
    if number > greatest {
        return None;
    }
    let mut buffer = itoa::Buffer::new();
    if buffer.format(number).as_bytes() != text {
        return None;
    }
    Some(number)
}

/// Where the first such byte stands, or the length where there is none.
pub(crate) fn end_of(text: &[u8], byte: u8) -> usize
    ensures within { result ≤ length text.now }
    ensures before { All (λ b. b ≢ byte) (take result text.now) }
    ensures behind { IsEnd byte (drop result text.now) }
{
    memchr(byte, text).unwrap_or(text.len())
}

/// What stands behind this byte at the front up to the next such byte, and the rest from that on, or none where the text doesn't begin
/// with this byte.
pub(crate) fn next_piece(text: &[u8], mark: u8) -> Option<(&[u8], &[u8])>
    ensures some { IfSome result (λ parts. text.now ≡ mark ∷ (parts.0.now ++ parts.1.now)) }
    ensures apart { IfSome result (λ parts. All (λ b. b ≢ mark) parts.0.now) }
    ensures end { IfSome result (λ parts. IsEnd mark parts.1.now) }
    ensures none { IfNone result ((rest : List ℕ) → text.now ≡ mark ∷ rest → ⊥) }
{
    let (first, others) = text.split_first()?;
    if *first != mark {
        return None;
    }
    Some(others.split_at(end_of(others, mark)))
}

/// The numbers of a text, with this mark in front of each.
pub(crate) fn read_numbers(
    alloc: Global,
    text: &[u8],
    mark: u8,
) -> Result<Option<Vec<u32>>, AllocError>
    requires { mark < 48 }
    ensures some { IfOk result (λ o. IfSome o
        (λ ks. (text.now ≡ listed mark ks.items) × IsWord ks.items)) }
    ensures none { IfOk result (λ o. IfNone o ((ks : List ℕ) → IsWord ks →
        text.now ≡ listed mark ks → ⊥)) }
{
    let mut numbers = Vec::new(alloc);
    let mut rest = text;
    while !rest.is_empty() {
        let Some((piece, more)) = next_piece(rest, mark) else {
            return Ok(None);
        };
        let Some(number) = read_number(piece, u64::from(u32::MAX)) else {
            return Ok(None);
        };
        numbers.push(number as u32)?;
        rest = more;
    }
    Ok(Some(numbers))
}
