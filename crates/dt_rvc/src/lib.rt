//! The expander of 16-bit instructions: the 32-bit instruction that each pattern stands for. The table
//! of forms stands in `specs/Table.antt`.
#![tactic(auto)]

mod expander;
mod fields;
mod words;

pub use expander::expand;
