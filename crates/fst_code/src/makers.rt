ghost use Rattle.std.specs.Prelude.{◌≡◌, ℕ, List, IfOk, OnOk, Some, if◌then◌else◌};
ghost use Rattle.std.specs.Str.{bytes_eq};
ghost use Rattle.fst_machine.specs.Standing.{DistinctMakers};
ghost use Rattle.fst_code.specs.Makers.{ArePlaced, ArePut, found};

use fst_types::{Family, Maker, Name};
use indexmap::IndexMap;
use std::alloc::{AllocError, Global};

/// Where a constructor stands in its data type, and how many constructors this has.
#[derive(Clone, Copy)]
pub(crate) struct MakerPlace {
    pub maker: usize,
    pub count: usize,
}

/// Names of constructors, each with the place of its own.
pub(crate) type MakerPlaces = IndexMap<Vec<u8>, MakerPlace>;

// Gives a name this place, whether it had another one or none.
fn put(
    alloc: Global,
    places: &mut MakerPlaces,
    name: &Name,
    place: MakerPlace,
) -> Result<(), AllocError>
    ensures { OnOk result ((x : List ℕ) → found places.new.entries x ≡
        (if bytes_eq x name.now then Some place else found places.old.entries x)) }
{
    let key = Vec::from_slice(alloc, name.as_slice())?;
    places.insert(key, place)?;
    Ok(())
}

// Gives the constructors of a data type their places.
fn put_makers(alloc: Global, places: &mut MakerPlaces, makers: &[Maker]) -> Result<(), AllocError>
    ensures { OnOk result (ArePut makers.now places.old.entries places.new.entries) }
{
    for (n, maker) in makers.iter().enumerate() {
        let place = MakerPlace {
            maker: n,
            count: makers.len(),
        };
        put(alloc, places, &maker.name, place)?;
    }
    Ok(())
}

/// The places of all constructors, which have different names.
pub(crate) fn maker_places(alloc: Global, families: &[Family]) -> Result<MakerPlaces, AllocError>
    requires { DistinctMakers families.now }
    ensures { IfOk result (λ places. ArePlaced families.now places.entries) }
{
    let mut places = IndexMap::new(alloc);
    for family in families {
        put_makers(alloc, &mut places, &family.makers)?;
    }
    Ok(places)
}
