//! Channel cells: the two ends of a channel on two threads, each call a single try for the channel's turn.
#![tactic(auto)]

mod answers;
mod calls;
mod closing;
mod content;
mod end;
mod entries;
mod events;
mod heads;
mod labels;
mod law;
mod making;
mod rule;
mod turns;

pub use answers::{Closed, Noticed, Offered, TakenEvent};
pub use closing::close;
pub use end::End;
pub use law::send_law;
pub use making::new_cell;
