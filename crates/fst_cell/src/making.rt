ghost use Rattle.std.specs.Prelude.{◌≡◌, [], IfOk};
ghost use Rattle.fst_types.specs.declared.side.Side.TheVariants.{Left, Right};
ghost use Rattle.fst_kinds.specs.WellFormed.{IsSession};
ghost use Rattle.fst_cell.specs.Rule.{fresh};

use crate::content::Content;
use crate::end::End;
use crate::entries::Entries;
use crate::rule::Parting;
use crate::turns::Grip;
use atomic_table::{Refused, Table};
use fst_lts::dual;
use fst_types::{ChannelName, EndName, Side, Ty, copy};
use std::alloc::{AllocError, Global};
use std::sync::Arc;

/// The two ends of a new channel: the left one has the declared type, the right one its dual.
#[tactic(auto, using(crate::proofs::ResidualLaws::residual_left, crate::proofs::ResidualLaws::residual_right))]
pub fn new_cell(alloc: Global, name: ChannelName, declared: Ty) -> Result<(End, End), AllocError>
    requires { IsSession [] declared }
    ensures { IfOk result (λ ends.
        (ends.0 ≡ record { cell = ends.0.cell; channel = name; knows = fresh Left declared })
        × (ends.1 ≡ record { cell = ends.0.cell; channel = name; knows = fresh Right declared })) }
{
    let again_name = name.copy(alloc)?;
    let left_type = copy(alloc, &declared)?;
    let right_type = dual(alloc, &declared)?;
    let mut slots = Vec::with_capacity(alloc, 1)?;
    slots.push_reserved(Some(Content {
        declared,
        history: Entries::new(alloc),
        offer: None,
    }));
    let (table, mut left) = match Table::new(alloc, &[0], slots, &left_type) {
        Ok(made) => made,
        Err(Refused { slots: _ }) => return Err(AllocError),
    };
    let right = table.shared.split_seat::<Parting>(&mut left);
    let table = Arc::new(alloc, table)?;
    let again = Arc::try_clone(&table)?;
    let left = End {
        grip: Grip { table, seat: left },
        name: EndName {
            channel: name,
            side: Side::Left,
        },
        residual: left_type,
        next: None,
        heap: alloc,
    };
    let right = End {
        grip: Grip {
            table: again,
            seat: right,
        },
        name: EndName {
            channel: again_name,
            side: Side::Right,
        },
        residual: right_type,
        next: None,
        heap: alloc,
    };
    Ok((left, right))
}
