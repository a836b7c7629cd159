//! One instruction of a hart: what it asks for, and the state that it leaves.
#![tactic(auto)]

mod causes;
mod finishing;
mod laws;
mod planning;
mod plans;
mod state;
#[cfg(test)]
mod tests;

pub use finishing::{csr_value, finish};
pub use laws::decoded_targets_are_even;
pub use planning::plan;
pub use plans::{Answer, AtomicOp, Planned};
pub use state::{Arch, reset, trap};
