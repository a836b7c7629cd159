//! The check of a refill: the line that a cache took in is one that its hart may have seen. The
//! definitions that the contracts cite stand in `specs/` here and in `dt_rules`.
#![tactic(auto)]

mod laws;
mod refilling;
#[cfg(test)]
mod tests;

pub use dt_rules::Misfit;
pub use laws::first_writes_decide_refills;
pub use refilling::refill;
