/// User mode, U (The RISC-V Instruction Set Manual, Volume II, section 1.2).
pub const USER: u8 = 0;
/// Supervisor mode, S.
pub const SUPERVISOR: u8 = 1;
/// Machine mode, M.
pub const MACHINE: u8 = 3;
