//! The report of a run as text, also with what was put into channels and not taken, and its summary.
#![tactic(auto)]

mod buffered;
mod entries;
mod report;
mod residual;
mod summary;

pub use buffered::buffered_text;
pub use report::report_text;
pub use summary::summary_text;
