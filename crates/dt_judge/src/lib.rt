//! The judge: whether each record of a hart is allowed, by the reference and by named rules. The
//! definitions that the contracts cite stand in `specs/` here and in the crates below.
#![tactic(auto)]

mod atomics;
mod findings;
mod judging;
mod kinds;
mod laws;
mod loads;
mod spans;
#[cfg(test)]
mod tests;

pub use dt_hart::Hart;
pub use judging::{Judged, judge, judge_at};
pub use laws::{
    earlier_moments_decide, later_writes_decide_nothing, records_have_one_finding,
    runs_have_an_end, runs_have_one_end,
};
