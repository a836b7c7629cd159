//! The checks of a trap: an interrupt that is enabled, a fetch that faults, or an instruction that
//! raises a cause by itself or by its access of memory. The definitions that the contracts cite stand
//! in `specs/`.
#![tactic(auto)]

mod faults;
mod instructions;
mod laws;
#[cfg(test)]
mod tests;
mod traps;

pub use instructions::access_address;
pub use laws::{allowed_traps_are_exact, first_writes_decide_traps};
pub use traps::{TrapEvent, TrapSpans, trap};
