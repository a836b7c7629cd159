//! The queue of one hart's records, between the thread that feeds them and the one worker that takes
//! them. No call waits.
#![tactic(auto)]

mod ends;
#[cfg(test)]
mod tests;

pub use ends::{Feed, Pop, Push, Take, meet, pair};
