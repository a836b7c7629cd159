//! The local memory of a hart: for each byte, the greatest key that was noted for it.
#![tactic(auto)]

mod laws;
mod local;
mod pairs;
mod slots;
mod steps;
#[cfg(test)]
mod tests;
mod words;

pub use laws::{greater_bounds_both, marks_stay_live};
pub use local::{Local, Mark};
