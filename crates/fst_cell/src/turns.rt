ghost use Rattle.std.specs.Prelude.{◌≡◌, ◌∷◌, [], None};
ghost use Rattle.std.specs.Arc.{arc_value};
ghost use Rattle.fst_cell.specs.Rule.{synced};
ghost use Rattle.fst_cell.specs.declared.content.View.TheVariants.{Only};
ghost use Rattle.fst_cell.specs.End.{half_of, Idle, Seized, IsOut, Stays, Passes};

use crate::content::Content;
use crate::rule::{CellSeat, CellTable, Return, Try};
use std::alloc::Global;
use std::sync::Arc;

// A seat with its table.
#[derive(Drop)]
pub(crate) struct Grip {
    pub(crate) table: Arc<CellTable, Global>,
    pub(crate) seat: CellSeat,
    pub(crate) ghost fits: { ((arc_value table).shared.table_id ≡ seat.table_id) ×
        (seat.table_id.words ≡ 1) },
}

impl Grip {
    // One try for the turn: the content, where the turn was free.
    pub(crate) fn seize(&mut self) -> Option<Content>
        requires { Idle self.old.seat.me }
        ensures cell { self.new.seat.table_id ≡ self.old.seat.table_id }
        ensures told { Seized (half_of self.old.seat.me.0) result self.new.seat.me }
    {
        let shared = &self.table.shared;
        let found = shared.fetch_or::<Try>(&mut self.seat, 0, 1);
        if found % 2 == 1 {
            return None;
        }
        let content = shared.exchange(&mut self.seat, 0, None);
        let Some(content) = content else {
            unreachable!()
        };
        Some(content)
    }

    // Gives the turn back with the content as it was.
    pub(crate) fn give_back(&mut self, content: Content)
        requires out { IsOut self.old.seat.me }
        requires same { Stays (half_of self.old.seat.me.0) content }
        ensures cell { self.new.seat.table_id ≡ self.old.seat.table_id }
        ensures told { self.new.seat.me ≡ (Only (synced (half_of self.old.seat.me.0) content), []) }
    {
        let shared = &self.table.shared;
        shared.exchange(&mut self.seat, 0, Some(content));
        shared.fetch_sub::<Return>(&mut self.seat, 0, 1);
    }

    // Gives the turn back with an offer, or with an entry in the place of the other end's offer.
    pub(crate) fn pass_on(&mut self, content: Content)
        requires out { IsOut self.old.seat.me }
        requires next { Passes (half_of self.old.seat.me.0) content }
        ensures cell { self.new.seat.table_id ≡ self.old.seat.table_id }
        ensures told { self.new.seat.me ≡ (Only (synced (half_of self.old.seat.me.0) content), []) }
    {
        let shared = &self.table.shared;
        shared.exchange(&mut self.seat, 0, Some(content));
        shared.fetch_add::<Return>(&mut self.seat, 0, 1);
    }
}
