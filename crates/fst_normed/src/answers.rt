//! How two words compare.

use fst_basis::Proof;

/// The answer of the decision.
#[derive(Drop)]
pub enum Decision {
    /// Both words perform the same traces: the pairs and their chains show it.
    Alike(Proof),
    /// Some trace is performed by one of them alone.
    Different,
    /// It takes more rewrites than may be made.
    Spent,
}
