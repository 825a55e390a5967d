ghost use Rattle.fst_code.specs.Makers.{ArePlaced};

use crate::makers::MakerPlaces;
use fst_types::Family;
use std::alloc::Global;

/// What code is written with: the allocator, the data types of the module, and where the constructor with each name stands.
#[derive(Drop)]
pub(crate) struct Given<'a> {
    pub alloc: Global,
    pub families: &'a [Family],
    pub makers: &'a MakerPlaces,
    ghost placed: { ArePlaced families.now makers.now.entries },
}
