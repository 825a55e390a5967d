use fst_types::{Event, Side};

/// What was put into a channel, and by which side.
#[derive(Drop)]
pub(crate) struct Message {
    pub(crate) side: Side,
    pub(crate) event: Event,
}
