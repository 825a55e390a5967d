use crate::content::{Content, View};
use atomic_table::{Join, Play, Seat, Split, Table, TableRule};
use fst_types::Ty;
use std::alloc::Global;

// The rule of a channel, over the table of its cell: one turn word, and one slot.
pub(crate) struct Cell;

impl TableRule<Option<Content>, View, Ty> for Cell {
    ghost use Rattle.fst_cell.specs.Rule.{Holds, both_fresh};

    ghost holds = { λ declared. Holds };

    ghost first = { both_fresh };
}

// A try for the turn.
pub(crate) struct Try;

impl Play<Option<Content>, View> for Try {
    ghost use Rattle.fst_cell.specs.Rule.{TriedAs};

    ghost then = { λ st m n after. TriedAs m.0 n after };
}

// The turn is given back.
pub(crate) struct Return;

impl Play<Option<Content>, View> for Return {
    ghost use Rattle.fst_cell.specs.Rule.{ReturnedAs};

    ghost then = { λ st m n after. ReturnedAs m.0 m.1 after };
}

// The maker parts into the two ends, and the two ends are joined.
pub(crate) struct Parting;

impl Split<View> for Parting {
    ghost use Rattle.fst_cell.specs.Rule.{left_of, right_of};

    ghost left = { left_of };

    ghost right = { right_of };
}

impl Join<View> for Parting {
    ghost use Rattle.fst_cell.specs.declared.content.View.TheVariants.{Nothing};
    ghost use Rattle.fst_cell.specs.Rule.{joined};

    ghost both = { joined };

    ghost spent = { Nothing };
}

pub(crate) type CellTable = Table<Option<Content>, View, Ty, Cell, Global>;

pub(crate) type CellSeat = Seat<Option<Content>, View>;
