//! One history of notes for all workers. A worker appends notes to it and looks at it with a pass of
//! its own; each pass remembers what it saw of the history and which notes it appended.
#![tactic(auto)]

mod entries;
mod gathers;
mod law;
mod passes;
mod progress;
mod records;
mod replicas;
#[cfg(test)]
mod tests;
mod turns;
mod views;

pub use entries::Entry;
pub use passes::Pass;
pub use records::SharedRecord;
pub use replicas::Replica;
