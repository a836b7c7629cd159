//! The checks of what a store writes into the store buffer, and of what a drain takes from it. The
//! definitions that the contracts cite stand in `specs/` here and in `dt_rules`.
#![tactic(auto)]

mod draining;
#[cfg(test)]
mod tests;

pub use draining::{drains, store_data};
pub use dt_rules::Misfit;
