ghost use Rattle.std.specs.Prelude.{◌≡◌};
ghost use Rattle.fst_types.specs.declared.side.Side.TheVariants.{Left, Right};
ghost use Rattle.fst_cell.specs.Close.{ClosedAs};

use crate::answers::Closed;
use crate::content::Content;
use crate::end::End;
use crate::rule::{Parting, Try};
use crate::turns::Grip;
use fst_types::{ChannelHistory, EndName};

/// Gives up the two ends of a channel, for its history and the offer that still stands.
pub fn close(left: End, right: End) -> Closed
    requires cell { left.cell ≡ right.cell }
    requires sides { (left.knows.side ≡ Left) × (right.knows.side ≡ Right) }
    ensures { ClosedAs left.channel left.knows right.knows result }
{
    let End {
        grip,
        name,
        residual: _,
        next: _,
        heap: _,
    } = left;
    let Grip { table, mut seat } = grip;
    let End {
        grip: far,
        name: _,
        residual: _,
        next: _,
        heap: _,
    } = right;
    let Grip {
        table: _,
        seat: other,
    } = far;
    let shared = &table.shared;
    shared.join_seat::<Parting>(&mut seat, other);
    shared.fetch_or::<Try>(&mut seat, 0, 1);
    let content = shared.exchange(&mut seat, 0, None);
    let Some(content) = content else {
        unreachable!()
    };
    let Content {
        declared,
        history,
        offer,
    } = content;
    let offered = match offer {
        Some(standing) => Some((standing.side, standing.offer.event)),
        None => None,
    };
    let EndName { channel, side: _ } = name;
    Closed {
        history: ChannelHistory {
            name: channel,
            declared,
            entries: history.into_items(),
        },
        offered,
    }
}
