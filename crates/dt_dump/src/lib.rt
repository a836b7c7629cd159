//! The command `dump`: the lines of the records of a stream, and how the stream ended.
#![tactic(auto)]

mod dumping;
mod lines;

pub use dumping::dump_probes;
pub use lines::{WRITE_FAULT, put_last};
