//! States of a hart at cuts: the cycles that are multiples of an interval. What is kept of them, which
//! cut a hart has reached, and the newest cut that all harts have reached.
#![tactic(auto)]

mod crossings;
mod cuts;
mod keepers;
mod laws;
#[cfg(test)]
mod tests;

pub use crossings::Crossing;
pub use cuts::{Cuts, Reach, newest_complete};
pub use keepers::Keeper;
pub use laws::{new_cuts_are_between, newer_cut_is_greatest};
