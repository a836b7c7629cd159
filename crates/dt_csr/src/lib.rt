//! The control and status registers of a RISC-V hart.
#![tactic(auto)]

mod access;
pub mod cause;
mod fields;
mod kept;
mod laws;
mod modes;
pub mod mstatus;
mod registers;
pub mod satp;
mod state;
#[cfg(test)]
mod tests;
mod traps;

pub use access::{CsrRead, may_write, read, write};
pub use fields::{Field, masked};
pub use kept::keeps_bounds;
pub use laws::{
    masked_by_bits, mret_undoes_trap, put_is_got, put_leaves_apart, sret_undoes_trap,
    sstatus_stays_inside,
};
pub use modes::{MACHINE, SUPERVISOR, USER};
pub use state::Csrs;
pub use traps::{enter_trap, expected_tval, interrupt_enabled, mret, sret};
