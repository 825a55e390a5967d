ghost use Rattle.std.specs.Prelude.{◌≡◌, ◌≤◌, ◌++◌, ℕ, List, [], OnOk, map, length};
ghost use Rattle.fst_parts.specs.Once.{position, with_part};
ghost use Rattle.fst_parts.specs.Views.{part_of, places_of, place_in, HasNumber, IsKept};

use crate::found::Found;
use crate::keys::Keys;
use crate::numbers::Numbered;
use crate::trees::Trees;
use std::alloc::{AllocError, Global};

/// The places of the binders around a part, innermost first.
#[derive(Drop)]
pub enum Binders<'a> {
    Top,
    Under(u32, &'a Binders<'a>),
}

/// The choices and `rec`s of two types, in order, and their numbers and places, by which they are found.
#[derive(Drop)]
pub struct Parts<'a> {
    pub found: Vec<Found<'a>>,
    pub index: Keys,
}

impl<'a> Parts<'a> {
    /// No parts.
    pub fn new(alloc: Global) -> Parts<'a>
        ensures parts { result.found.items ≡ [] }
        ensures kept { (keys : List (List ℕ)) → IsKept keys result }
    {
        Parts {
            found: Vec::new(alloc),
            index: Keys::new(alloc),
        }
    }
}

/// The place of a part in the list, or the length.
#[tactic(auto, using(crate::proofs::PartLaws::place_position))]
pub fn place_of(trees: &Trees, parts: &Parts<'_>, whole: Numbered<'_>, at: u32) -> usize
    requires whole { HasNumber trees.now whole }
    requires kept { IsKept trees.now parts.now }
    ensures value { result ≡ position (map part_of parts.now.found.items) whole.entry.ty.now at }
    ensures within { result ≤ length parts.now.found.items }
{
    parts.index.place_of(&[whole.number, at as usize])
}

fn list_places(out: &mut Vec<u32>, binders: &Binders<'_>) -> Result<(), AllocError>
    ensures { OnOk result (out.new.items ≡ out.old.items ++ places_of binders.now) }
{
    match binders {
        Binders::Top => Ok(()),
        Binders::Under(at, outer) => {
            out.push(*at)?;
            list_places(out, outer)
        }
    }
}

/// Puts a part behind the list, unless it is there.
pub fn note<'a>(
    alloc: Global,
    trees: &Trees,
    parts: &mut Parts<'a>,
    whole: Numbered<'a>,
    at: u32,
    binders: &Binders<'_>,
    t: Numbered<'a>,
) -> Result<(), AllocError>
    requires whole { HasNumber trees.now whole }
    requires part { HasNumber trees.now t }
    requires kept { IsKept trees.now parts.old }
    ensures kept { OnOk result (IsKept trees.now parts.new) }
    ensures parts { OnOk result (map part_of parts.new.found.items ≡ with_part
        (map part_of parts.old.found.items)
        (record {
          place = place_in whole.entry.ty.now at (places_of binders.now);
          type =
              t.entry.ty.now;
        })) }
{
    if place_of(trees, parts, whole, at) < parts.found.len() {
        return Ok(());
    }
    let mut places = Vec::new(alloc);
    list_places(&mut places, binders)?;
    let key = Vec::from_slice(alloc, &[whole.number, at as usize])?;
    parts.index.put(key)?;
    parts.found.push(Found {
        whole,
        at,
        binders: places,
        part: t,
    })?;
    Ok(())
}
