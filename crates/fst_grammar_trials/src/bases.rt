//! Bases as text, and whether they join two words.

use crate::grammars::{are_letters_below, digits, grammar, one_digit};
use fst_basis::{Chain, Pair, Rewrite, check};
use fst_expand::expand;
use fst_norms::unnormed;
use fst_tables::{basis_text, each_line, fields, no_row};
use fst_words::{Word, is_below, is_in_range};
use std::alloc::{AllocError, Global};
use std::test::Fail;

fn word(alloc: Global, text: &str) -> Result<Word, AllocError> {
    Word::of(alloc, &digits(alloc, text)?)
}

/// The pairs of a text, in which `2-3` is that of the words 2 and 3.
fn pairs(alloc: Global, text: &str) -> Result<Vec<Pair>, Fail> {
    let mut pairs = Vec::new(alloc);
    for part in text.split_whitespace() {
        let (left, right) = part.split_once('-').ok_or("no pair")?;
        pairs.push(Pair {
            left: word(alloc, left)?,
            right: word(alloc, right)?,
        })?;
    }
    Ok(pairs)
}

/// The rewrite of a text: `f 1 0` goes forth at 1 by pair 0, and `b 1 0` back; `c 0 12` cuts the tail 12 behind the non-terminal
/// at 0, and `g 0 12` puts it there.
fn rewrite(alloc: Global, text: &str) -> Result<Rewrite, Fail> {
    let parts: Vec<&str> = text.split_whitespace().collect(alloc)?;
    let [kind, place, rest] = parts.as_slice() else {
        return Err(no_row());
    };
    let at = one_digit(place) as u64;
    let pair = one_digit(rest);
    let tail = word(alloc, rest)?;
    match *kind {
        "f" => Ok(Rewrite::Forth { at, pair }),
        "b" => Ok(Rewrite::Back { at, pair }),
        "c" => Ok(Rewrite::Cut { at, tail }),
        "g" => Ok(Rewrite::Grow { at, tail }),
        _ => Err(no_row()),
    }
}

/// The rewrites of a text, divided by commas.
fn chain(alloc: Global, text: &str) -> Result<Chain, Fail> {
    let mut steps = Vec::new(alloc);
    for part in text.split(',') {
        if !part.trim().is_empty() {
            steps.push(rewrite(alloc, part)?)?;
        }
    }
    Ok(Chain { steps })
}

/// The chains of a text, divided by `/`, or none.
fn chains(alloc: Global, text: &str) -> Result<Vec<Chain>, Fail> {
    let mut chains = Vec::new(alloc);
    if text == "none" {
        return Ok(chains);
    }
    for part in text.split('/') {
        chains.push(chain(alloc, part)?)?;
    }
    Ok(chains)
}

/// As many marks as this, those of the numbers of a text.
fn marks(alloc: Global, count: usize, text: &str) -> Result<Vec<bool>, AllocError> {
    let mut marks = Vec::new(alloc);
    for n in 0..count {
        let number = u32::try_from(n).unwrap_or(u32::MAX);
        marks.push(digits(alloc, text)?.contains(&number))?;
    }
    Ok(marks)
}

// A grammar, the marked non-terminals, two words, the pairs, the chains, and whether they join the words. In
// `0 / 1 / 2 3022 / 2 3033` the non-terminals 2 and 3 are trees of numbers; `00 / 3` has a loop and what may stand behind it.
const BASES: &str = "\
0 / 1 / 2 3022 / 2 3033 ¦ ¦ 21 ¦ 31 ¦ 2-3 ¦ f 0 0 / / f 1 0, f 2 0 = true
0 / 1 / 2 3022 / 2 3033 ¦ ¦ 21 ¦ 31 ¦ 2-3 ¦ f 0 0 / / f 2 0, f 1 0 = true
0 / 1 / 2 3022 / 2 3033 ¦ ¦ 31 ¦ 21 ¦ 2-3 ¦ b 0 0 / / f 1 0, f 2 0 = true
0 / 1 / 2 3022 / 2 3033 ¦ ¦ 31 ¦ 21 ¦ 3-2 ¦ f 0 0 / / f 1 0, f 2 0 = true
0 / 1 / 2 3022 / 2 3033 ¦ ¦ 21 ¦ 31 ¦ 2-3 ¦ f 0 0 / / f 1 0 = false
0 / 1 / 2 3022 / 2 3033 ¦ ¦ 21 ¦ 31 ¦ 2-3 ¦ f 0 0 / f 1 0, f 2 0 / = false
0 / 1 / 2 3022 / 2 3033 ¦ ¦ 21 ¦ 31 ¦ 2-3 ¦ f 0 0 / / f 1 0, f 2 0 / = false
0 / 1 / 2 3022 / 2 3033 ¦ ¦ 21 ¦ 31 ¦ 2-3 ¦ f 0 0 / = false
0 / 1 / 2 3022 / 2 3033 ¦ ¦ 21 ¦ 31 ¦ 2-3 ¦ none = false
0 / 1 / 2 3022 / 2 3033 ¦ ¦ 21 ¦ 31 ¦ 2-3 ¦ / / f 1 0, f 2 0 = false
0 / 1 / 2 3022 / 2 3033 ¦ ¦ 21 ¦ 31 ¦ 2-3 ¦ b 0 0 / / f 1 0, f 2 0 = false
0 / 1 / 2 3022 / 2 3033 ¦ ¦ 21 ¦ 31 ¦ 2-3 ¦ f 0 1 / / f 1 0, f 2 0 = false
0 / 1 / 2 3022 / 2 3033 ¦ ¦ 21 ¦ 31 ¦ 2-3 ¦ f 9 0 / / f 1 0, f 2 0 = false
0 / 1 / 2 3022 / 2 3033 ¦ ¦ 21 ¦ 31 ¦ 2-3 8-8 ¦ f 0 0 / / f 1 0, f 2 0 = false
0 / 1 / 2 3022 / 2 3033 ¦ ¦ 20 ¦ 31 ¦ 2-3 ¦ f 0 0 / / f 1 0, f 2 0 = false
0 / 1 ¦ ¦ 0 ¦ 1 ¦ 0-1 ¦ f 0 0 / = false
0 / 0 ¦ ¦ 0 ¦ 1 ¦ 0-1 ¦ f 0 0 / = true
0 / 0 ¦ ¦ ¦ ¦ ¦ = true
0 / 0 ¦ ¦ 2 ¦ 2 ¦ ¦ = false
¦ ¦ ¦ 0 ¦ -0 ¦ f 0 0 = false
¦ ¦ 0 ¦ ¦ 0- ¦ f 0 0 = false
00 / 3 ¦ 0 ¦ 01 ¦ 0 ¦ ¦ c 0 1 = true
00 / 3 ¦ 0 ¦ 0 ¦ 011 ¦ ¦ g 0 11 = true
00 / 3 ¦ 0 ¦ 01 ¦ 011 ¦ ¦ c 0 1, g 0 11 = true
00 / 3 ¦ 0 ¦ 101 ¦ 10 ¦ ¦ c 1 1 = true
00 / 3 ¦ ¦ 01 ¦ 0 ¦ ¦ c 0 1 = false
00 / 3 ¦ 0 ¦ 01 ¦ 0 ¦ ¦ c 0 0 = false
00 / 3 ¦ 0 ¦ 01 ¦ 011 ¦ ¦ g 0 1 = false
00 / 3 ¦ 0 ¦ 0 ¦ 0 ¦ ¦ g 0 9, c 0 9 = false
0 / 3 ¦ 0 ¦ 01 ¦ 0 ¦ ¦ c 0 1 = false
00 10 / 3 ¦ 0 ¦ 01 ¦ 0 ¦ ¦ c 0 1 = true
00 1 / 3 ¦ 0 ¦ 01 ¦ 0 ¦ ¦ c 0 1 = false
08 ¦ ¦ ¦ ¦ ¦ = false
4 ¦ ¦ ¦ ¦ ¦ = false";

fn base_row(alloc: Global, given: &str) -> Result<String, Fail> {
    let fields = fields(alloc, given)?;
    let [rows, marked, u, v, basis, joining] = fields.as_slice() else {
        return Err(no_row());
    };
    let g = grammar(alloc, rows)?;
    let marks = marks(alloc, g.rules.len(), marked)?;
    let (u, v) = (word(alloc, u)?, word(alloc, v)?);
    let basis = pairs(alloc, basis)?;
    let chains = chains(alloc, joining)?;
    let joined = check(alloc, &g, &marks, &u, &v, &basis, &chains)?;
    Ok(format!(in alloc; "{joined}")?)
}

// A grammar, two words, a budget, and whether what is found within it joins the words, with the pairs of the basis, or none. In
// `0 / 1 / 2 3022 / 2 3033` one pair and four heads are counted; in `0 / 00 / 011` there is one letter, and a word is as good as its
// norm; in the last grammar a norm is too great for its head to be dropped.
const FOUND: &str = "\
0 / 1 / 2 3022 / 2 3033 ¦ 21 ¦ 31 ¦ 5 = true 2-3
0 / 1 / 2 3022 / 2 3033 ¦ 21 ¦ 31 ¦ 4 = none
0 / 1 / 2 3022 / 2 3033 ¦ 31 ¦ 21 ¦ 5 = true 3-2
0 / 1 / 2 3022 / 2 3033 ¦ 21 ¦ 30 ¦ 9 = none
0 / 1 / 2 3022 / 2 3033 ¦ 21 ¦ 21 ¦ 1 = true
0 / 1 / 2 3022 / 2 3033 ¦ 2 ¦ 31 ¦ 9 = none
0 / 1 ¦ 0 ¦ 1 ¦ 9 = none
0 / 00 ¦ 1 ¦ 00 ¦ 2 = true 1-00
0 / 00 ¦ 1 ¦ 00 ¦ 1 = none
0 / 00 ¦ 00 ¦ 1 ¦ 2 = true 00-1
0 / 00 / 011 ¦ 2 ¦ 110 ¦ 7 = true 2-101 00-1 1-00
0 / 00 / 011 ¦ 2 ¦ 110 ¦ 6 = none
0 / 00 / 011 ¦ 2 ¦ 1100 ¦ 9 = none
00 / 3 ¦ 01 ¦ 011 ¦ 1 = true
01 / 00 ¦ 0 ¦ 1 ¦ 2 = true 0-1 1-0
01 / 00 ¦ 0 ¦ 1 ¦ 1 = none
01 / 00 / 3 ¦ 022 ¦ 1 ¦ 2 = true 0-1 1-0
0 / 00000 / 01111 / 02222 / 03333 / 03333 ¦ 4 ¦ 5 ¦ 2 = true 4-5
0 / 00000 / 01111 / 02222 / 03333 / 04444 / 05555 / 05555 ¦ 6 ¦ 7 ¦ 1 = true 6-7";

/// The basis that is found, which joins the two words by its chains.
fn found_row(alloc: Global, given: &str) -> Result<String, Fail> {
    let fields = fields(alloc, given)?;
    let [rows, u, v, budget] = fields.as_slice() else {
        return Err(no_row());
    };
    let g = grammar(alloc, rows)?;
    let (u, v) = (word(alloc, u)?, word(alloc, v)?);
    let (count, budget) = (g.rules.len(), one_digit(budget));
    if !is_in_range(&g) || !are_letters_below(g.letters.len(), &g.rules) {
        return Err(Fail::new("rules out of range"));
    }
    if !is_below(u.as_slice(), count) || !is_below(v.as_slice(), count) || budget == 0 {
        return Err(Fail::new("words out of range, or no budget"));
    }
    let marks = unnormed(alloc, &g)?;
    let Some(found) = expand(alloc, &g, &marks, &u, &v, budget)? else {
        return Ok(String::from_str(alloc, "none")?);
    };
    let joined = check(alloc, &g, &marks, &u, &v, &found.basis, &found.chains)?;
    Ok(format!(in alloc; "{joined}{}", basis_text(alloc, &found.basis)?)?)
}

#[test]
fn heads_are_dropped_until_a_basis_is_found(rt: HostRuntime) -> Result<(), Fail> {
    each_line(rt.alloc(), FOUND, found_row)
}

#[test]
fn chains_join_words_by_a_basis(rt: HostRuntime) -> Result<(), Fail> {
    each_line(rt.alloc(), BASES, base_row)
}

#[test]
fn each_non_terminal_has_a_mark(rt: HostRuntime) -> Result<(), Fail> {
    let alloc = rt.alloc();
    let g = grammar(alloc, "0 / 0")?;
    let u = word(alloc, "0")?;
    let chains = chains(alloc, "")?;
    assert!(rt; check(alloc, &g, &[false, false], &u, &u, &[], &chains)?);
    assert!(rt; !check(alloc, &g, &[false], &u, &u, &[], &chains)?);
    assert!(rt; !check(alloc, &g, &[false, false, false], &u, &u, &[], &chains)?);
    Ok(())
}
