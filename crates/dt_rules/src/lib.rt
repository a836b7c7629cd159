//! The tests that settle a departure from the reference: interrupts, tval, counters, pending bits,
//! device reads and reservations. Each is one question with one answer; the letters that reports
//! print for them and the reasons of a refusal are those of dt_record. The checks that several kinds
//! of records make stand here too.
#![tactic(auto)]

mod adopted;
mod misfits;
mod reservations;
#[cfg(test)]
mod tests;
mod traps;

pub use adopted::{counter, device, pending};
pub use dt_record::{Letters, Reason};
pub use misfits::{Misfit, NO_LETTERS, NO_NUMBER, NO_SOURCES, Passed, none_left, same_bytes};
pub use reservations::sc_live;
pub use traps::{interrupt, tval};
