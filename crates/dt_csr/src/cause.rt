//! The parts of a trap's cause and of a trap vector (The RISC-V Instruction Set Manual, Volume II,
//! sections 3.1.7 and 3.1.15). The constants of exceptions are whole causes, with bit 63 clear. LR
//! counts as a load; SC and the atomic memory operations count as stores.
use crate::Field;

/// 1 where the trap is an interrupt, 0 where it is an exception.
pub const INTERRUPT: Field = Field { low: 63, width: 1 };
/// Which exception or interrupt it is: its code.
pub const CODE: Field = Field { low: 0, width: 63 };

/// 1 where a trap vector sends each interrupt to a place of its own, 0 where it has one place for
/// all.
pub const VECTORED: Field = Field { low: 0, width: 1 };

/// Instruction access fault: a halfword of the instruction lies where nothing can be fetched.
pub const FETCH_ACCESS: u64 = 1;
/// Illegal instruction.
pub const ILLEGAL_INSTRUCTION: u64 = 2;
/// Breakpoint: what EBREAK raises.
pub const BREAKPOINT: u64 = 3;
/// Load address misaligned.
pub const LOAD_MISALIGNED: u64 = 4;
/// Load access fault.
pub const LOAD_ACCESS: u64 = 5;
/// Store or AMO address misaligned.
pub const STORE_MISALIGNED: u64 = 6;
/// Store or AMO access fault.
pub const STORE_ACCESS: u64 = 7;
/// The environment call from U; those from S and M have the numbers of their modes more.
pub const CALL_FROM_USER: u64 = 8;
/// Instruction page fault.
pub const FETCH_PAGE: u64 = 12;
/// Load page fault.
pub const LOAD_PAGE: u64 = 13;
/// Store or AMO page fault.
pub const STORE_PAGE: u64 = 15;

/// The codes of the software, timer and external interrupts of S (1, 5 and 9), as bits of a mask.
pub const SUPERVISOR_INTERRUPTS: u64 = 0x222;
/// Those of S and of M (1, 3, 5, 7, 9 and 11), as bits of a mask.
pub const INTERRUPTS: u64 = 0xAAA;
