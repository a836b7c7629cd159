//! What judging a probe file comes to: the failure of each hart, the verdict over all of them, and
//! what a report counts and names.
#![tactic(auto)]

mod answers;
mod laws;
mod tallies;
#[cfg(test)]
mod tests;
mod verdicts;

pub use answers::{Checked, Refusal};
pub use laws::verdicts_are_least;
pub use tallies::{Counts, HartCounts, Noted, NotedRecords, Tallies};
pub use verdicts::{Failure, Outcome, Verdict, least};
