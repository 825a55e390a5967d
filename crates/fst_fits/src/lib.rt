//! Whether the types of a term's parts, and its arms, fit what the rules ask of them.
#![tactic(auto)]

mod arms;
mod fitting;
mod ready;

pub use arms::{labels_fit, makers_fit};
pub use fitting::{
    apply_fits, arrow_fits, channel_fits, close_fits, fork_fits, global_fits, if_fits, is_at,
    is_named, maker_at, negate_fits, operate_fits, pair_fits, pair_parts, receive_fits,
    select_fits, send_fits, seq_fits, type_at, types_at, wait_fits,
};
pub use ready::{is_formed, is_often, is_plain, is_same, kind_in, use_in};
