ghost use Rattle.std.specs.Prelude.{◌≡◌, ◌<◌, ◌%◌, ◌==◌, not, ◌&&◌};
ghost use Rattle.dt_decode.specs.Decoded.{IsDecoded};
ghost use Rattle.dt_step.specs.State.{IsArch, register};
ghost use Rattle.dt_step.specs.Causes.{offset_address, address_of, reads_csr, writes_csr, csr_is_legal, is_open_to_s, is_illegal, unless, due_cause};

use crate::Arch;
use dt_csr::cause::{
    BREAKPOINT, CALL_FROM_USER, ILLEGAL_INSTRUCTION, LOAD_MISALIGNED, STORE_MISALIGNED,
};
use dt_csr::{CsrRead, MACHINE, SUPERVISOR, USER, may_write, mstatus, read};
use dt_decode::{CsrOp, Instr};

/// The value of a register.
pub fn value_of(a: &Arch, r: u8) -> u64
    requires arch { IsArch a.now }
    requires register { r < 32 }
    ensures { result ≡ register a.now r }
{
    a.x[usize::from(r)]
}

/// The address of a load or a store.
pub fn offset_address(a: &Arch, rs1: u8, imm: u64) -> u64
    requires arch { IsArch a.now }
    requires register { rs1 < 32 }
    ensures { result ≡ offset_address a.now rs1 imm }
{
    value_of(a, rs1).wrapping_add(imm)
}

/// The virtual address that an instruction accesses, and 0 where it accesses no memory.
pub fn address_of(a: &Arch, i: Instr) -> u64
    requires arch { IsArch a.now }
    requires decoded { IsDecoded i }
    ensures { result ≡ address_of a.now i }
{
    match i {
        Instr::Load { rs1, imm, .. } | Instr::Store { rs1, imm, .. } => offset_address(a, rs1, imm),
        Instr::Lr { rs1, .. } | Instr::Sc { rs1, .. } | Instr::Amo { rs1, .. } => value_of(a, rs1),
        _ => 0,
    }
}

/// The cause that an instruction raises by itself, if any.
pub fn due_cause(a: &Arch, i: Instr) -> Option<u64>
    requires arch { IsArch a.now }
    requires decoded { IsDecoded i }
    ensures { result ≡ due_cause a.now i }
{
    match i {
        Instr::Load { width, .. } | Instr::Lr { width, .. } => {
            unless(is_aligned(address_of(a, i), width), LOAD_MISALIGNED)
        }
        Instr::Store { width, .. } | Instr::Sc { width, .. } | Instr::Amo { width, .. } => {
            unless(is_aligned(address_of(a, i), width), STORE_MISALIGNED)
        }
        Instr::Csr {
            op,
            number,
            rd,
            source,
            ..
        } => { unless(csr_is_legal(a, op, number, rd, source), ILLEGAL_INSTRUCTION) }
        Instr::Ecall => Some(CALL_FROM_USER + u64::from(a.mode)),
        Instr::Ebreak => Some(BREAKPOINT),
        Instr::Mret => unless(a.mode == MACHINE, ILLEGAL_INSTRUCTION),
        Instr::Sret => {
            let traps = mstatus::TSR.get(a.csrs.mstatus);
            unless(is_open_to_s(a.mode, traps), ILLEGAL_INSTRUCTION)
        }
        Instr::Wfi => {
            let traps = mstatus::TW.get(a.csrs.mstatus);
            unless(is_open_to_s(a.mode, traps), ILLEGAL_INSTRUCTION)
        }
        Instr::SfenceVma { .. } => {
            let traps = mstatus::TVM.get(a.csrs.mstatus);
            unless(is_open_to_s(a.mode, traps), ILLEGAL_INSTRUCTION)
        }
        _ => None,
    }
}

/// Whether a CSR instruction reads its register.
pub fn reads_csr(op: CsrOp, rd: u8) -> bool
    ensures { result ≡ reads_csr op rd }
{
    match op {
        CsrOp::Write => rd != 0,
        CsrOp::Set | CsrOp::Clear => true,
    }
}

/// Whether a CSR instruction writes its register.
pub fn writes_csr(op: CsrOp, source: u8) -> bool
    ensures { result ≡ writes_csr op source }
{
    match op {
        CsrOp::Write => true,
        CsrOp::Set | CsrOp::Clear => source != 0,
    }
}

fn csr_is_legal(a: &Arch, op: CsrOp, number: u16, rd: u8, source: u8) -> bool
    ensures { result ≡ csr_is_legal a.now op number rd source }
{
    let refused = reads_csr(op, rd) && is_illegal(read(&a.csrs, a.mode, a.hart, number));
    !refused && (!writes_csr(op, source) || may_write(&a.csrs, a.mode, number))
}

fn is_illegal(read: CsrRead) -> bool
    ensures { result ≡ is_illegal read }
{
    match read {
        CsrRead::Illegal => true,
        CsrRead::Value(_) | CsrRead::Counter(_) | CsrRead::Pending(_) => false,
    }
}

fn is_aligned(address: u64, width: u8) -> bool
    requires { 0 < width }
    ensures { result ≡ (address % width == 0) }
{
    address % u64::from(width) == 0
}

/// Whether a privileged instruction is legal in S or M, where `traps` is the field of mstatus that
/// makes it trap in S.
fn is_open_to_s(mode: u8, traps: u64) -> bool
    ensures { result ≡ is_open_to_s mode traps }
{
    mode > USER && !(mode == SUPERVISOR && traps == 1)
}

fn unless(legal: bool, cause: u64) -> Option<u64>
    ensures { result ≡ unless legal cause }
{
    if legal { None } else { Some(cause) }
}
