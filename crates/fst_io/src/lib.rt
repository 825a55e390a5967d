//! Where the program's bytes come from and go to, and the gate that sees its workers' turns.
#![tactic(auto)]

mod adapters;
mod gate;
mod memory;
mod reading;
mod sink;
mod source;
mod steady;
mod writing;

pub use adapters::{InputSource, OutputSink};
pub use gate::{Gate, OpenGate};
pub use memory::{MemorySink, MemorySource};
pub use reading::{ReadFault, read_all};
pub use sink::{Sink, SinkFault};
pub use source::{Failed, Source};
pub use steady::{SteadySink, SteadySource};
pub use writing::{WriteFault, write_all};
