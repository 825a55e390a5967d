//! Records of runs: logs and histories that fit, how they grow, and that they are runs.
#![tactic(auto)]

mod law;

pub use law::{
    apart_law, count_law, entry_law, events_law, extends_law, gather_law, run_law, runs_law,
    stamp_law,
};
