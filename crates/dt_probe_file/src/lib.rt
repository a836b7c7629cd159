//! The stream of answers that the bytes of a probe file give.
#![tactic(auto)]

mod finding;
mod fronts;
mod headers;
mod holding;
mod laws;
mod probes;
mod reading;
mod steps;
#[cfg(test)]
mod tests;

pub use laws::{broken_answers, file_answers, one_list};
pub use probes::{FileProbes, Room};
