//! The decoder of 32-bit instructions: what each pattern means. The table of instructions stands in
//! `specs/Table.antt`.
#![tactic(auto)]

mod computing;
mod control;
mod decoder;
mod fields;
mod instructions;
mod laws;
mod memory;

pub use decoder::decode;
pub use instructions::{CsrOp, Instr};
pub use laws::{meaning_is_of_a_row, meaning_is_well_formed, rows_are_apart, rows_are_masks};
