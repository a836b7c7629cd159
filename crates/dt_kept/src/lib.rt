//! What is kept of a file for a replay: the states of its harts at a cut, their records from it on, all
//! writes; and the trace of a failure, which is what a replay shows.
#![tactic(auto)]

mod keeping;
mod laws;
mod states;
#[cfg(test)]
mod tests;
mod traces;
mod tracing;

pub use keeping::{events_from, kept_from};
pub use laws::{cuts_split_records, fronts_are_before_cuts};
pub use states::{HartEvents, Kept, Snapshot};
pub use traces::{Trace, Traced};
pub use tracing::traced_events;
