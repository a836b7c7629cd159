//! Where bytes come from and where they go: sources and sinks, in memory, in files and at standard
//! output. A fault of reading or writing always shows in a count, so that a caller above can say
//! that it gave up only where something outside failed.
#![tactic(auto)]

mod counts;
mod gates;
mod lending;
mod memory;
mod system;
#[cfg(test)]
mod tests;
mod traits;
mod whole;

pub use gates::{FreeGate, Gate, GateEvent};
pub use memory::{CalmSource, MemSink, MemSource};
pub use system::{FileSource, StdSink};
pub use traits::{Failed, Sink, Source};
pub use whole::{Filled, ReadRefusal, fill, read_behind, read_up_to, write_all};
