//! The fields of satp (The RISC-V Instruction Set Manual, Volume II, section 4.1.11).
use crate::Field;

/// The page number of the root table.
pub const PPN: Field = Field { low: 0, width: 44 };
/// How addresses are translated.
pub const MODE: Field = Field { low: 60, width: 4 };

/// Addresses are not translated.
pub const BARE: u64 = 0;
/// Page tables of three levels.
pub const SV39: u64 = 8;
/// Page tables of four levels.
pub const SV48: u64 = 9;
