//! The check of a stream of probe records by workers in threads of their own. The caller's thread feeds
//! them. What it answers is what one thread answers, whatever the schedule.
#![tactic(auto)]

mod checking;
mod joining;
mod opening;
mod starting;
#[cfg(test)]
mod tests;

pub use checking::check;
