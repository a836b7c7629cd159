//! A worker: some of the harts of a file in one thread, from their queues to what came of them.
#![tactic(auto)]

mod ending;
mod ends;
mod lanes;
mod laws;
mod looking;
mod telling;
#[cfg(test)]
mod tests;
mod workers;

pub use dt_lane::HartEnd;
pub use ends::WorkerEnd;
pub use laws::outcomes_over_its_own_history;
pub use workers::Worker;
