//! What the tests of types share: types by their codes, and what calls answer of them, as text.
#![tactic(auto)]

mod building;
mod comparisons;
mod equivalence;
mod kinds;
mod moves;
mod texts;

pub use building::{ty, ty_around, unfolded, unfolded_within_limit};
pub use comparisons::{compared, comparison_text};
pub use equivalence::{asked, translated, verdict_text};
pub use kinds::{four_kinds, kind, kind_text};
pub use moves::left_behind;
pub use texts::text_of;
