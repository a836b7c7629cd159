ghost use Rattle.std.specs.Prelude.{◌≡◌, ◌==◌, ◌<◌, ◌↔◌, None, IfSome};
ghost use Rattle.std.specs.Bool.{OnFalse};
ghost use Rattle.dt_csr.specs.Fields.{field_of, masks_of};
ghost use Rattle.dt_csr.specs.Access.{is_open, counter_is_open, reached_by, read_of, shown, may_write_of, write_of, written, ChangesOnly, lowest_mode, is_read_only, keeps_mode, rewritten_status};
ghost use Rattle.dt_csr.specs.Registers.{register_at, status_fields};
ghost use Rattle.dt_csr.specs.Kept.{AreKeptInBounds, NamesMode};

use crate::cause::{INTERRUPTS, SUPERVISOR_INTERRUPTS};
use crate::registers::Register;
use crate::{Csrs, MACHINE, SUPERVISOR, masked, mstatus, satp};

/// What a read of a control and status register gives.
#[derive(Clone, Copy, Debug, PartialEq, Eq)]
pub enum CsrRead {
    /// The register has this value.
    Value(u64),
    /// A counter, of which only a floor is known: 0 for cycle, 1 for time, 2 for instret.
    Counter(u8),
    /// Interrupts that are pending, which are not known: bits of this mask.
    Pending(u64),
    /// The read is illegal.
    Illegal,
}

/// RV64 with A, C, I, M, S and U (Volume II, section 3.1.1).
const MISA: u64 = 0x8000_0000_0014_1105;
/// The exceptions that can be delegated to S.
pub const EXCEPTIONS_DELEGATED: u64 = 0xB3FF;
/// The bits of a trap vector that can be written: all but bit 1.
pub const VECTOR_WRITABLE: u64 = !2;
/// The bits of mepc and sepc that can be written: all but bit 0.
pub const PC_WRITABLE: u64 = !1;
/// The bits for cycle, time and instret.
pub const COUNTERS: u64 = 7;

/// What hart `hart` reads in this mode from the register with this number.
pub fn read(c: &Csrs, mode: u8, hart: u8, number: u16) -> CsrRead
    ensures answer { result ≡ read_of c.now mode hart number }
    ensures illegal { (result ≡ CsrRead.Illegal) ↔ (reached_by c.now mode number ≡ None) }
{
    match reached(c, mode, number) {
        Some(register) => show(c, hart, register),
        None => CsrRead::Illegal,
    }
}

/// Whether `write` of the register with this number is legal in this mode.
pub fn may_write(c: &Csrs, mode: u8, number: u16) -> bool
    ensures { result ≡ may_write_of c.now mode number }
{
    reached(c, mode, number).is_some() && !cannot_be_written(number)
}

/// Writes the register with this number, and answers whether that is legal in this mode.
pub fn write(c: &mut Csrs, mode: u8, number: u16, value: u64) -> bool
    ensures legal { result ≡ may_write_of c.old mode number }
    ensures registers { c.new ≡ write_of c.old mode number value }
    ensures refused { OnFalse result (c.new ≡ c.old) }
    ensures only { IfSome (register_at number) (λ register. ChangesOnly register c.old c.new) }

    ensures mpp { NamesMode c.old.mstatus → NamesMode c.new.mstatus }
    ensures keeps { AreKeptInBounds c.old → AreKeptInBounds c.new }
{
    match reached(c, mode, number) {
        Some(register) if !cannot_be_written(number) => {
            store(c, register, value);
            true
        }
        _ => false,
    }
}

/// The register that an access reaches, where it is legal.
fn reached(c: &Csrs, mode: u8, number: u16) -> Option<Register>
    ensures { result ≡ reached_by c.now mode number }
{
    let register = Register::with_number(number)?;
    if (number >> 8) & 3 <= u16::from(mode) && opens(c, mode, register) {
        Some(register)
    } else {
        None
    }
}

fn cannot_be_written(number: u16) -> bool
    ensures { result ≡ is_read_only number }
{
    (number >> 10) & 3 == 3
}

/// What the register asks of the state.
fn opens(c: &Csrs, mode: u8, register: Register) -> bool
    ensures { result ≡ is_open c.now mode register }
{
    match register {
        Register::Satp => mode != SUPERVISOR || mstatus::TVM.get(c.mstatus) != 1,
        Register::Cycle => counter_opens(c, mode, 0),
        Register::Time => counter_opens(c, mode, 1),
        Register::Instret => counter_opens(c, mode, 2),
        _ => true,
    }
}

fn counter_opens(c: &Csrs, mode: u8, counter: u32) -> bool
    requires { counter < 64 }
    ensures { result ≡ counter_is_open c.now mode counter }
{
    mode >= MACHINE
        || (c.mcounteren >> counter) & 1 == 1
            && (mode >= SUPERVISOR || (c.scounteren >> counter) & 1 == 1)
}

fn show(c: &Csrs, hart: u8, register: Register) -> CsrRead
    ensures { result ≡ shown c.now hart register }
{
    match register {
        Register::Mstatus => CsrRead::Value(c.mstatus),
        Register::Misa => CsrRead::Value(MISA),
        Register::Medeleg => CsrRead::Value(c.medeleg),
        Register::Mideleg => CsrRead::Value(c.mideleg),
        Register::Mie => CsrRead::Value(c.mie),
        Register::Mtvec => CsrRead::Value(c.mtvec),
        Register::Mcounteren => CsrRead::Value(c.mcounteren),
        Register::Mscratch => CsrRead::Value(c.mscratch),
        Register::Mepc => CsrRead::Value(c.mepc),
        Register::Mcause => CsrRead::Value(c.mcause),
        Register::Mtval => CsrRead::Value(c.mtval),
        Register::Mip => CsrRead::Pending(INTERRUPTS),
        Register::Mvendorid | Register::Marchid | Register::Mimpid | Register::Mconfigptr => {
            CsrRead::Value(0)
        }
        Register::Mhartid => CsrRead::Value(u64::from(hart)),
        Register::Sstatus => CsrRead::Value(c.mstatus & mstatus::SUPERVISOR_SHOWN),
        Register::Sie => CsrRead::Value(c.mie & c.mideleg),
        Register::Stvec => CsrRead::Value(c.stvec),
        Register::Scounteren => CsrRead::Value(c.scounteren),
        Register::Sscratch => CsrRead::Value(c.sscratch),
        Register::Sepc => CsrRead::Value(c.sepc),
        Register::Scause => CsrRead::Value(c.scause),
        Register::Stval => CsrRead::Value(c.stval),
        Register::Sip => CsrRead::Pending(c.mideleg & SUPERVISOR_INTERRUPTS),
        Register::Satp => CsrRead::Value(c.satp),
        Register::Mcycle | Register::Cycle => CsrRead::Counter(0),
        Register::Time => CsrRead::Counter(1),
        Register::Minstret | Register::Instret => CsrRead::Counter(2),
    }
}

fn store(c: &mut Csrs, register: Register, value: u64)
    ensures { c.new ≡ written c.old register value }
{
    match register {
        Register::Mstatus => c.mstatus = status_after(c.mstatus, value),
        Register::Sstatus => c.mstatus = masked(mstatus::SUPERVISOR_WRITABLE, c.mstatus, value),
        Register::Medeleg => c.medeleg = masked(EXCEPTIONS_DELEGATED, c.medeleg, value),
        Register::Mideleg => c.mideleg = masked(SUPERVISOR_INTERRUPTS, c.mideleg, value),
        Register::Mie => c.mie = masked(INTERRUPTS, c.mie, value),
        Register::Sie => c.mie = masked(c.mideleg, c.mie, value),
        Register::Mtvec => c.mtvec = masked(VECTOR_WRITABLE, c.mtvec, value),
        Register::Stvec => c.stvec = masked(VECTOR_WRITABLE, c.stvec, value),
        Register::Mcounteren => c.mcounteren = masked(COUNTERS, c.mcounteren, value),
        Register::Scounteren => c.scounteren = masked(COUNTERS, c.scounteren, value),
        Register::Mepc => c.mepc = masked(PC_WRITABLE, c.mepc, value),
        Register::Sepc => c.sepc = masked(PC_WRITABLE, c.sepc, value),
        Register::Mscratch => c.mscratch = value,
        Register::Sscratch => c.sscratch = value,
        Register::Mcause => c.mcause = value,
        Register::Scause => c.scause = value,
        Register::Mtval => c.mtval = value,
        Register::Stval => c.stval = value,
        Register::Satp if keeps(c.wide, satp::MODE.get(value)) => c.satp = value,
        Register::Mcycle => c.cycle_floor = value,
        Register::Minstret => c.instret_floor = value,
        _ => {}
    }
}

/// mstatus after a write: an MPP that names no mode is not written.
fn status_after(old: u64, value: u64) -> u64
    ensures { result ≡ rewritten_status (masks_of status_fields) old value }
{
    let after = masked(mstatus::WRITABLE, old, value);
    if mstatus::MPP.get(value) == mstatus::RESERVED_MODE {
        mstatus::MPP.put(after, mstatus::MPP.get(old))
    } else {
        after
    }
}

/// Whether satp keeps a MODE.
pub fn keeps(wide: bool, mode: u64) -> bool
    ensures { result ≡ keeps_mode wide mode }
{
    mode == satp::BARE || mode == satp::SV39 || wide && mode == satp::SV48
}
