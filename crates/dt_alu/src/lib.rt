//! The arithmetic of RV64IMA: what the integer, branch and atomic instructions compute.
#![tactic(auto)]

mod atomics;
mod branches;
mod doublewords;
mod integers;
mod operations;
#[cfg(test)]
mod tests;
mod widths;
mod words;

pub use atomics::amo;
pub use branches::compare;
pub use integers::alu;
pub use operations::{AluOp, AmoOp, Cond};
pub use widths::extend;
