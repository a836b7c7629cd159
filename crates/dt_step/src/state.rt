ghost use Rattle.std.specs.Prelude.{◌≡◌, ◌<◌, ◌%◌, ℕ};
ghost use Rattle.dt_csr.specs.Kept.{AreKeptInBounds};
ghost use Rattle.dt_step.specs.State.{IsArch, IsReachable, register, with_register, reset_arch, trapped};

use dt_csr::{Csrs, MACHINE, enter_trap};

/// The state of a hart that instructions see (The RISC-V Instruction Set Manual, Volume I, section
/// 2.1, and Volume II, chapter 2).
#[derive(Clone, Copy, Debug, PartialEq, Eq)]
pub struct Arch {
    pub pc: u64,
    /// The registers x0 to x31, of which x0 is 0.
    pub x: [u64; 32],
    pub csrs: Csrs,
    /// The mode: 0 (U), 1 (S) or 3 (M).
    pub mode: u8,
    /// The hart's number.
    pub hart: u8,
}

/// The address of the first instruction after a reset.
const RESET_PC: u64 = 0x8000_0000;

/// A hart after a reset.
pub fn reset(hart: u8) -> Arch
    ensures value { result ≡ reset_arch hart }
    ensures arch { IsArch result }
    ensures reachable { IsReachable result }
{
    Arch {
        pc: RESET_PC,
        x: [0; 32],
        csrs: Csrs::reset(),
        mode: MACHINE,
        hart,
    }
}

/// Enters a trap at the present instruction. `tval` is what the trap's value register gets, mtval
/// or stval. Below M a cause that medeleg or mideleg delegates goes to S, and every other trap to M
/// (The RISC-V Instruction Set Manual, Volume II, sections 3.1.8 and 3.1.16).
pub fn trap(a: &mut Arch, cause: u64, tval: u64)
    requires { IsArch a.old }
    ensures state { a.new ≡ trapped a.old cause tval }
    ensures arch { IsArch a.new }
    ensures reachable { IsReachable a.old → IsReachable a.new }
{
    let (mode, pc) = enter_trap(&mut a.csrs, a.mode, a.pc, cause, tval);
    a.mode = mode;
    a.pc = pc;
}
