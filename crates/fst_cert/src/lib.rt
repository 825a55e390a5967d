//! Certificates: their text, a line for each pair of a basis and for each chain, and whether they show two types to be equivalent.
#![tactic(auto)]

mod auditing;
mod chains;
mod fault;
mod numbers;
mod pairs;
mod places;
mod proving;
mod reading;
mod visited;
mod ways;
mod writing;

pub use auditing::audit;
pub use fault::{AuditFault, CertFault};
pub use proving::proof_of;
pub use reading::read_cert;
pub use writing::cert_text;
