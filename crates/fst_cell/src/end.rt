use crate::heads::Next;
use crate::turns::Grip;
use fst_types::{EndName, Ty};
use std::alloc::Global;
use std::marker::Model;

/// One end of a channel, which contracts see as its cell, the channel's name and what the end knows. Between calls it
/// never holds the turn.
#[derive(Drop)]
pub struct End {
    pub(crate) grip: Grip,
    pub(crate) name: EndName,
    pub(crate) residual: Ty,
    // What the offer that waits leaves of the residual.
    pub(crate) next: Option<Next>,
    pub(crate) heap: Global,
}

impl Model for End {
    ghost use Rattle.std.specs.Coded.{codes};
    ghost use Rattle.fst_types.specs.contracts.ty.Ty as ty;
    ghost use Rattle.fst_cell.specs.End.{EndView, half_of, IsEnd};

    ghost Value = { EndView };

    ghost coded = { Prim.hlevel (codes, ty.the_row.coded) };

    ghost view = { λ e. record {
      cell = e.grip.seat.table_id;
      channel = e.name.channel;
      knows =
          half_of e.grip.seat.me.0;
    } };

    ghost invariant = { λ e. IsEnd e.grip.seat.me e.name.side e.residual e.next };
}
