ghost use Rattle.std.specs.Prelude.{◌≡◌, ◌≢◌, ◌==◌, ◌&&◌, ◌↔◌, not, IsTrue, bit_and};
ghost use Rattle.std.specs.Int.{w64, bit_not};
ghost use Rattle.dt_csr.specs.Access.{keeps_mode};
ghost use Rattle.dt_csr.specs.Fields.{field_of};
ghost use Rattle.dt_csr.specs.Kept.{KeepsBounds, are_within_bounds, machine_has_fixed_bits, supervisor_has_fixed_bits, values_of};

use crate::access::{COUNTERS, EXCEPTIONS_DELEGATED, PC_WRITABLE, VECTOR_WRITABLE, keeps};
use crate::cause::{INTERRUPTS, SUPERVISOR_INTERRUPTS};
use crate::{Csrs, mstatus, satp};

/// Whether the bits outside the mask, which no write reaches, are as after a reset.
fn has_fixed_bits(mask: u64, reset: u64, value: u64) -> bool
    ensures { result ≡ (bit_and value (bit_not w64 mask) == bit_and reset (bit_not w64 mask)) }
{
    value & !mask == reset & !mask
}

fn machine_has_fixed_bits(c: &Csrs) -> bool
    ensures { result ≡ machine_has_fixed_bits c.now }
{
    has_fixed_bits(mstatus::WRITABLE, mstatus::RESET, c.mstatus)
        && has_fixed_bits(EXCEPTIONS_DELEGATED, 0, c.medeleg)
        && has_fixed_bits(SUPERVISOR_INTERRUPTS, 0, c.mideleg)
        && has_fixed_bits(INTERRUPTS, 0, c.mie)
        && has_fixed_bits(VECTOR_WRITABLE, 0, c.mtvec)
        && has_fixed_bits(COUNTERS, 0, c.mcounteren)
        && has_fixed_bits(PC_WRITABLE, 0, c.mepc)
}

fn supervisor_has_fixed_bits(c: &Csrs) -> bool
    ensures { result ≡ supervisor_has_fixed_bits c.now }
{
    has_fixed_bits(VECTOR_WRITABLE, 0, c.stvec)
        && has_fixed_bits(COUNTERS, 0, c.scounteren)
        && has_fixed_bits(PC_WRITABLE, 0, c.sepc)
}

fn are_within_bounds(c: &Csrs, wide: bool) -> bool
    ensures { result ≡ are_within_bounds c.now wide }
{
    machine_has_fixed_bits(c)
        && supervisor_has_fixed_bits(c)
        && mstatus::MPP.get(c.mstatus) != mstatus::RESERVED_MODE
        && keeps(wide, satp::MODE.get(c.satp))
}

/// The registers with these values, whatever they are, and with no floors.
fn with_values(v: &[u64; 17]) -> Csrs
    ensures { values_of result ≡ v.now }
{
    let [
        mstatus,
        medeleg,
        mideleg,
        mie,
        mtvec,
        mcounteren,
        mscratch,
        mepc,
        mcause,
        mtval,
        stvec,
        scounteren,
        sscratch,
        sepc,
        scause,
        stval,
        satp,
    ] = *v;
    Csrs {
        mstatus,
        medeleg,
        mideleg,
        mie,
        mtvec,
        mcounteren,
        mscratch,
        mepc,
        mcause,
        mtval,
        stvec,
        scounteren,
        sscratch,
        sepc,
        scause,
        stval,
        satp,
        ..Csrs::reset()
    }
}

/// Whether the 17 kept registers can have these values, in the order of `Csrs::values`. `wide` is
/// whether satp also keeps the MODE of Sv48.
pub fn keeps_bounds(v: &[u64; 17], wide: bool) -> bool
    ensures { IsTrue result ↔ KeepsBounds v.now wide }
{
    are_within_bounds(&with_values(v), wide)
}

impl Csrs {
    ghost use Rattle.dt_csr.specs.Kept.{AreKeptInBounds, KeepsBounds, values_of};

    /// The registers with these values, in the order of `values`, and these floors under what
    /// mcycle, minstret and time show next.
    pub fn of_values(v: [u64; 17], cycle: u64, instret: u64, time: u64, wide: bool) -> Csrs
        requires { KeepsBounds v wide }
        ensures values { values_of result ≡ v }
        ensures cycle { result.cycle_floor ≡ cycle }
        ensures instret { result.instret_floor ≡ instret }
        ensures time { result.time_floor ≡ time }
        ensures wide { result.wide ≡ wide }
        ensures keeps { AreKeptInBounds result }
    {
        Csrs {
            cycle_floor: cycle,
            instret_floor: instret,
            time_floor: time,
            wide,
            ..with_values(&v)
        }
    }
}
