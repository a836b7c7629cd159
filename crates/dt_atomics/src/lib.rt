//! The checks of an atomic after those that all instructions share: which own stores are drained
//! before it, whether an SC may succeed, and what is read and written. The definitions that the
//! contracts cite stand in `specs/` here and in the crates below.
#![tactic(auto)]

mod accesses;
mod draining;
mod judging;
mod laws;
mod reading;
#[cfg(test)]
mod tests;
mod values;

pub use accesses::AtomicAccess;
pub use dt_rules::{Misfit, Passed};
pub use dt_step::AtomicOp;
pub use judging::atomic;
pub use laws::{
    allowed_atomics_are_exact, atomics_have_an_answer, atomics_have_one_answer,
    first_writes_decide_atomics,
};
