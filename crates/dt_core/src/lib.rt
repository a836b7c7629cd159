//! The core of a run by many workers, as plain data: the steps of feeding, taking, announcing,
//! looking and judging in any order, and the law by which a record may be judged before the file
//! has ended.
#![tactic(auto)]

mod cores;
mod entries;
mod harts;
mod judgements;
mod laws;
mod notes;
mod steps;
mod tells;
#[cfg(test)]
mod tests;
mod truths;
mod worlds;
mod writes;

pub use entries::Entry;
pub use judgements::Judgement;
pub use laws::{
    below_is_needed, below_mark_may_be_judged, every_run_holds, strict_mark_is_needed,
    writes_below_mark_are_all, writes_until_judged_are_all, writes_until_passed_are_all,
};
pub use steps::{CoreStep, Notes};
pub use worlds::{World, step};
