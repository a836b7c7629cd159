//! What decides an access of memory besides the page tables: how its address is translated in a state,
//! which physical addresses it may reach, and the causes of its faults. The definitions that the
//! contracts cite stand in `specs/`.
#![tactic(auto)]

mod faults;
mod reaching;
#[cfg(test)]
mod tests;
mod translating;

pub use faults::{access_cause, fault_cause, page_cause};
pub use reaching::reached;
pub use translating::{atomic_access, walk_args};
