//! The fields of mstatus (The RISC-V Instruction Set Manual, Volume II, section 3.1.6).
use crate::Field;

/// Interrupts are enabled in S.
pub const SIE: Field = Field { low: 1, width: 1 };
/// Interrupts are enabled in M.
pub const MIE: Field = Field { low: 3, width: 1 };
/// SIE before the last trap into S.
pub const SPIE: Field = Field { low: 5, width: 1 };
/// MIE before the last trap into M.
pub const MPIE: Field = Field { low: 7, width: 1 };
/// The mode before the last trap into S.
pub const SPP: Field = Field { low: 8, width: 1 };
/// The mode before the last trap into M.
pub const MPP: Field = Field { low: 11, width: 2 };
/// Loads and stores have the mode of MPP.
pub const MPRV: Field = Field { low: 17, width: 1 };
/// S may load and store in pages of U.
pub const SUM: Field = Field { low: 18, width: 1 };
/// Loads may read pages that can only be executed.
pub const MXR: Field = Field { low: 19, width: 1 };
/// S may not access satp, nor execute SFENCE.VMA.
pub const TVM: Field = Field { low: 20, width: 1 };
/// WFI is illegal below M.
pub const TW: Field = Field { low: 21, width: 1 };
/// SRET is illegal in S.
pub const TSR: Field = Field { low: 22, width: 1 };
/// The register width in U.
pub const UXL: Field = Field { low: 32, width: 2 };
/// The register width in S.
pub const SXL: Field = Field { low: 34, width: 2 };

/// What UXL and SXL hold for registers of 64 bits.
pub const XLEN_64: u64 = 2;
/// The MPP that names no mode.
pub const RESERVED_MODE: u64 = 2;

/// The bits that a write of sstatus reaches.
pub const SUPERVISOR_WRITABLE: u64 = 1 << SIE.low
    | 1 << SPIE.low
    | 1 << SPP.low
    | 1 << SUM.low
    | 1 << MXR.low;
/// The bits that sstatus shows.
pub const SUPERVISOR_SHOWN: u64 = SUPERVISOR_WRITABLE | XLEN_64 << UXL.low;
/// The bits that a write of mstatus reaches.
pub const WRITABLE: u64 = SUPERVISOR_WRITABLE
    | 1 << MIE.low
    | 1 << MPIE.low
    | 3 << MPP.low
    | 1 << MPRV.low
    | 1 << TVM.low
    | 1 << TW.low
    | 1 << TSR.low;
/// mstatus after a reset.
pub const RESET: u64 = XLEN_64 << UXL.low | XLEN_64 << SXL.low;
