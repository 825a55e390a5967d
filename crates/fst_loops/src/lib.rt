//! Loops of directed graphs, and orders in which what lies on none stands behind all that it leads to.
#![tactic(auto)]

mod orders;
mod search;

pub use orders::{Order, order_of};
