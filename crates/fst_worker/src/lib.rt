//! All tasks of a run on several workers: shares of them that are moved on threads, what their turns keep, how the two ends of a
//! channel find each other, and that logs and histories are a record of a run at its end.
#![tactic(auto)]

mod closing;
mod dealing;
mod ending;
mod finishing;
mod law;
mod marking;
mod passes;
mod rounds;
mod shares;
mod tries;
mod workers;

pub use law::{
    answer_law, apart_law, begin_law, least_law, order_law, pair_law, pool_law, record_law,
    resume_law, right_law, send_law, sound_law, tell_law, went_law,
};
pub use shares::Share;
pub use workers::{Logged, run_logged, run_workers};
