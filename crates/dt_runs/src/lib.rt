//! The run of one hart: its records are judged one after another, up to the first that is not
//! allowed, over a memory that may grow while they are. The definitions that the contracts cite
//! stand in `specs/`.
#![tactic(auto)]

mod laws;
mod running;
mod steps;
#[cfg(test)]
mod tests;

pub use laws::{file_records_are_own, runs_come_to_an_end};
pub use running::HartRun;
