//! The reference run of a hart: what its instructions mean, the state after each of its records, and
//! what each record does to the order of its memory accesses. Whether a record is allowed is not
//! asked here.
#![tactic(auto)]

mod laws;
mod meanings;
mod states;
#[cfg(test)]
mod tests;

pub use laws::{actions_go_on, state_goes_on};
pub use meanings::meaning;
pub use states::{advance, answer, can_follow, start};
