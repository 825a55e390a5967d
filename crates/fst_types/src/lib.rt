//! Types as trees, their labels, and what every later crate asks of them: size, equality, a copy,
//! substitution, unfolding and instances; types as they were written; and what passes over channels, with the names of tasks,
//! channels and ends.
#![tactic(auto)]

mod base;
mod counting;
mod ends;
mod event;
mod family;
mod fault;
mod instance;
mod kind;
mod label;
mod law;
mod moves;
mod name;
mod path;
mod scope;
mod side;
mod ty;
mod unfolding;
mod walks;
mod written;

pub use base::Base;
pub use counting::substituted_size;
pub use ends::{ChannelName, EndName};
pub use event::{ChannelHistory, Entry, Event};
pub use family::{Family, Maker};
pub use fault::UnfoldFault;
pub use instance::{instance_size, instantiate};
pub use kind::{Kind, Prekind, Use};
pub use label::Label;
pub use law::{label_order_law, substitution_law};
pub use moves::Move;
pub use name::Name;
pub use path::Path;
pub use scope::{MOST_OPEN, Scope, substitute, substitute_within};
pub use side::Side;
pub use ty::{Branch, Ty, TyForm};
pub use unfolding::{unfold, unfold_within_limit};
pub use walks::{copy, same, size};
pub use written::{Written, WrittenBranch, WrittenForm};
