ghost use Rattle.std.specs.Prelude.{◌≡◌, ◌==◌, ◌<◌, ◌^◌, ◌%◌, ◌↔◌, ℕ, IsTrue, bit_and, bit_or, if◌then◌else◌};
ghost use Rattle.std.specs.Int.{bit_at};
ghost use Rattle.dt_csr.specs.Fields.{field_of};
ghost use Rattle.dt_csr.specs.Kept.{AreKeptInBounds, NamesMode};
ghost use Rattle.dt_csr.specs.Modes.{IsMode};
ghost use Rattle.dt_csr.specs.Traps.{expected_tval, is_delegated, trap_mode, trap_pc, status_in_s, status_in_m, entered, entered_pc, status_after_mret, status_after_sret, mret_mode, mret_pc, after_mret, sret_mode, sret_pc, after_sret, takes_for_m, takes_for_s, is_enabled, enabled_codes};

use crate::cause::{
    BREAKPOINT, CODE, FETCH_ACCESS, FETCH_PAGE, ILLEGAL_INSTRUCTION, INTERRUPT, LOAD_ACCESS,
    LOAD_MISALIGNED, LOAD_PAGE, STORE_ACCESS, STORE_MISALIGNED, STORE_PAGE, VECTORED,
};
use crate::mstatus::{MIE, MPIE, MPP, MPRV, SIE, SPIE, SPP};
use crate::{Csrs, MACHINE, SUPERVISOR, USER};

/// Takes a trap at the instruction at `pc`, in this mode: 0 (U), 1 (S) or 3 (M). It answers in
/// which mode and at which address the hart goes on.
pub fn enter_trap(c: &mut Csrs, mode: u8, pc: u64, cause: u64, tval: u64) -> (u8, u64)
    requires { IsMode mode }
    ensures mode { result.0 ≡ trap_mode c.old mode cause }
    ensures pc { result.1 ≡ entered_pc c.old mode cause }
    ensures registers { c.new ≡ entered c.old mode pc cause tval }

    ensures is_mode { IsMode result.0 }
    ensures mpp { NamesMode c.old.mstatus → NamesMode c.new.mstatus }
    ensures keeps { AreKeptInBounds c.old → pc % 2 ≡ 0 → AreKeptInBounds c.new }
{
    if mode < MACHINE && delegates(c, cause) {
        c.mstatus = status_in_s(c.mstatus, mode);
        c.sepc = pc;
        c.scause = cause;
        c.stval = tval;
        (SUPERVISOR, place(c.stvec, cause))
    } else {
        c.mstatus = status_in_m(c.mstatus, mode);
        c.mepc = pc;
        c.mcause = cause;
        c.mtval = tval;
        (MACHINE, place(c.mtvec, cause))
    }
}

/// Returns from a trap into M. It answers in which mode and at which address the hart goes on.
pub fn mret(c: &mut Csrs) -> (u8, u64)
    ensures mode { result.0 ≡ mret_mode c.old }
    ensures pc { result.1 ≡ mret_pc c.old }
    ensures registers { c.new ≡ after_mret c.old }

    ensures is_mode { NamesMode c.old.mstatus → IsMode result.0 }
    ensures mpp { NamesMode c.new.mstatus }
    ensures keeps { AreKeptInBounds c.old → AreKeptInBounds c.new }
{
    let mode = MPP.get(c.mstatus) as u8;
    c.mstatus = status_after_mret(c.mstatus);
    (mode, c.mepc)
}

/// Returns from a trap into S. It answers in which mode and at which address the hart goes on.
pub fn sret(c: &mut Csrs) -> (u8, u64)
    ensures mode { result.0 ≡ sret_mode c.old }
    ensures pc { result.1 ≡ sret_pc c.old }
    ensures registers { c.new ≡ after_sret c.old }

    ensures is_mode { IsMode result.0 }
    ensures mpp { NamesMode c.old.mstatus → NamesMode c.new.mstatus }
    ensures keeps { AreKeptInBounds c.old → AreKeptInBounds c.new }
{
    let mode = SPP.get(c.mstatus) as u8;
    c.mstatus = status_after_sret(c.mstatus);
    (mode, c.sepc)
}

/// The codes of the interrupts that are enabled in this mode, as bits of a mask.
pub fn interrupt_enabled(c: &Csrs, mode: u8) -> u64
    ensures mask { result ≡ enabled_codes c.now mode }
    ensures codes { (code : ℕ) → (bit_at result code ≡ 1) ↔ IsTrue (is_enabled c.now mode code) }
{
    let not_delegated = only_if(takes_for_m(c, mode), c.mie & !c.mideleg);
    let delegated = only_if(takes_for_s(c, mode), c.mie & c.mideleg);
    not_delegated | delegated
}

/// Whether this mode takes interrupts that go to M.
fn takes_for_m(c: &Csrs, mode: u8) -> bool
    ensures { result ≡ takes_for_m c.now mode }
{
    mode < MACHINE || MIE.get(c.mstatus) == 1
}

/// Whether this mode takes interrupts that go to S.
fn takes_for_s(c: &Csrs, mode: u8) -> bool
    ensures { result ≡ takes_for_s c.now mode }
{
    mode == USER || mode == SUPERVISOR && SIE.get(c.mstatus) == 1
}

/// The tval that a cause is expected to come with: the virtual address of the access for a fault,
/// the bits of an illegal instruction, the pc of a breakpoint, and else 0.
pub fn expected_tval(cause: u64, address: u64, bits: u64, pc: u64) -> u64
    ensures { result ≡ expected_tval cause address bits pc }
{
    match cause {
        FETCH_ACCESS
        | LOAD_MISALIGNED
        | LOAD_ACCESS
        | STORE_MISALIGNED
        | STORE_ACCESS
        | FETCH_PAGE
        | LOAD_PAGE
        | STORE_PAGE => address,
        ILLEGAL_INSTRUCTION => bits,
        BREAKPOINT => pc,
        _ => 0,
    }
}

/// Whether a cause is delegated to S.
fn delegates(c: &Csrs, cause: u64) -> bool
    ensures { result ≡ is_delegated c.now cause }
{
    let codes = if INTERRUPT.get(cause) == 1 {
        c.mideleg
    } else {
        c.medeleg
    };
    has_code(codes, CODE.get(cause))
}

fn has_code(codes: u64, code: u64) -> bool
    ensures { result ≡ (bit_at codes code == 1) }
{
    code < 64 && (codes >> code) & 1 == 1
}

/// Where a vector sends a trap.
fn place(vector: u64, cause: u64) -> u64
    ensures { result ≡ trap_pc vector cause }
{
    let base = vector & !3;
    if INTERRUPT.get(cause) == 1 && VECTORED.get(vector) == 1 {
        base.wrapping_add(CODE.get(cause).wrapping_mul(4))
    } else {
        base
    }
}

/// mstatus after a trap into S.
fn status_in_s(status: u64, mode: u8) -> u64
    requires { mode < 2 }
    ensures { result ≡ status_in_s status mode }
{
    let disabled = SIE.put(SPIE.put(status, SIE.get(status)), 0);
    SPP.put(disabled, u64::from(mode))
}

/// mstatus after a trap into M.
fn status_in_m(status: u64, mode: u8) -> u64
    requires { mode < 4 }
    ensures { result ≡ status_in_m status mode }
{
    let disabled = MIE.put(MPIE.put(status, MIE.get(status)), 0);
    MPP.put(disabled, u64::from(mode))
}

fn status_after_mret(status: u64) -> u64
    ensures { result ≡ status_after_mret status }
{
    let enabled = MPIE.put(MIE.put(status, MPIE.get(status)), 1);
    let popped = MPP.put(enabled, u64::from(USER));
    if MPP.get(status) == u64::from(MACHINE) {
        popped
    } else {
        MPRV.put(popped, 0)
    }
}

fn status_after_sret(status: u64) -> u64
    ensures { result ≡ status_after_sret status }
{
    let enabled = SPIE.put(SIE.put(status, SPIE.get(status)), 1);
    MPRV.put(SPP.put(enabled, u64::from(USER)), 0)
}

fn only_if(enabled: bool, codes: u64) -> u64
    ensures { result ≡ (if enabled then codes else 0) }
{
    if enabled { codes } else { 0 }
}
