ghost use Rattle.std.specs.Prelude.{◌≡◌, ◌<◌, ◌%◌, MatchOption};
ghost use Rattle.dt_alu.specs.Extend.{IsAccessWidth, low_bytes_of};
ghost use Rattle.dt_decode.specs.Decoded.{IsDecoded};
ghost use Rattle.dt_step.specs.State.{IsArch};
ghost use Rattle.dt_step.specs.Alignment.{AccessesAligned};
ghost use Rattle.dt_step.specs.Causes.{due_cause, due_tval};
ghost use Rattle.dt_step.specs.PlanParts.{system_plan, atomic_plan, access_plan};
ghost use Rattle.dt_step.specs.Plans.{length_of, next_of, legal_plan, plan_of, NamesRegister, IsFinishable, HasEvenTarget, HasEvenNext, fence_of, pages_of, csr_operand};

use crate::causes::{address_of, due_cause, offset_address, reads_csr, value_of, writes_csr};
use crate::{Arch, AtomicOp, Planned};
use dt_alu::{alu, compare, extend};
use dt_csr::expected_tval;
use dt_decode::Instr;

/// The bits of an atomic instruction that order its accesses: acquire and release.
#[derive(Clone, Copy, Debug)]
struct Ordering {
    aq: bool,
    rl: bool,
}

/// What an instruction asks for. `bits` is the instruction as fetched, with an upper half of zero
/// where it has 16 bits.
pub fn plan(a: &Arch, i: Instr, bits: u32) -> Planned
    requires arch { IsArch a.now }
    requires decoded { IsDecoded i }
    ensures plan { result ≡ plan_of a.now i bits }
    ensures due { MatchOption (due_cause a.now i) (IsFinishable result)
        (λ cause. result ≡ Planned.Raises cause (due_tval a.now i bits cause)) }
    ensures registers { NamesRegister result }
    ensures aligned { AccessesAligned result }
    ensures even { a.now.pc % 2 ≡ 0 → HasEvenTarget i → HasEvenNext result }
{
    match due_cause(a, i) {
        Some(cause) => {
            let tval = expected_tval(cause, address_of(a, i), u64::from(bits), a.pc);
            Planned::Raises { cause, tval }
        }
        None => legal_plan(a, i, bits),
    }
}

/// The plan of an instruction that raises nothing by itself.
fn legal_plan(a: &Arch, i: Instr, bits: u32) -> Planned
    requires arch { IsArch a.now }
    requires decoded { IsDecoded i }
    ensures plan { result ≡ legal_plan a.now i bits }
    ensures finishable { IsFinishable result }
    ensures even { a.now.pc % 2 ≡ 0 → HasEvenTarget i → HasEvenNext result }
{
    let next = next_of(a, bits);
    match i {
        Instr::Lui { rd, imm } => done(rd, imm, next),
        Instr::Auipc { rd, imm } => done(rd, a.pc.wrapping_add(imm), next),
        Instr::Jal { rd, imm } => done(rd, next, a.pc.wrapping_add(imm)),
        Instr::Jalr { rd, rs1, imm } => done(rd, next, offset_address(a, rs1, imm) & !1),
        Instr::Branch {
            cond,
            rs1,
            rs2,
            imm,
        } => {
            let taken = compare(cond, value_of(a, rs1), value_of(a, rs2));
            done(0, 0, if taken { a.pc.wrapping_add(imm) } else { next })
        }
        Instr::AluImm {
            op,
            word,
            rd,
            rs1,
            imm,
        } => { done(rd, alu(op, word, value_of(a, rs1), imm), next) }
        Instr::Alu {
            op,
            word,
            rd,
            rs1,
            rs2,
        } => { done(rd, alu(op, word, value_of(a, rs1), value_of(a, rs2)), next) }
        _ => access_plan(a, i, bits),
    }
}

/// The plan of an instruction that accesses memory or is one of the system's.
fn access_plan(a: &Arch, i: Instr, bits: u32) -> Planned
    requires arch { IsArch a.now }
    requires decoded { IsDecoded i }
    ensures plan { result ≡ access_plan a.now i bits }
    ensures finishable { IsFinishable result }
    ensures even { a.now.pc % 2 ≡ 0 → HasEvenTarget i → HasEvenNext result }
{
    match i {
        Instr::Load {
            width,
            signed,
            rd,
            rs1,
            imm,
        } => {
            let va = offset_address(a, rs1, imm);
            Planned::NeedsLoad {
                va,
                width,
                signed,
                rd,
            }
        }
        Instr::Store {
            width,
            rs1,
            rs2,
            imm,
        } => {
            let va = offset_address(a, rs1, imm);
            let value = low_bytes(width, value_of(a, rs2));
            Planned::NeedsStore { va, width, value }
        }
        _ => atomic_plan(a, i, bits),
    }
}

/// The plan of an atomic instruction or of one of the system's.
fn atomic_plan(a: &Arch, i: Instr, bits: u32) -> Planned
    requires arch { IsArch a.now }
    requires decoded { IsDecoded i }
    ensures plan { result ≡ atomic_plan a.now i bits }
    ensures finishable { IsFinishable result }
    ensures even { a.now.pc % 2 ≡ 0 → HasEvenTarget i → HasEvenNext result }
{
    match i {
        Instr::Lr {
            width,
            aq,
            rl,
            rd,
            rs1,
        } => {
            let order = Ordering { aq, rl };
            atomic(value_of(a, rs1), width, AtomicOp::Lr, order, rd, 0)
        }
        Instr::Sc {
            width,
            aq,
            rl,
            rd,
            rs1,
            rs2,
        } => {
            let order = Ordering { aq, rl };
            let operand = low_bytes(width, value_of(a, rs2));
            atomic(value_of(a, rs1), width, AtomicOp::Sc, order, rd, operand)
        }
        Instr::Amo {
            op,
            width,
            aq,
            rl,
            rd,
            rs1,
            rs2,
        } => {
            let order = Ordering { aq, rl };
            let operand = low_bytes(width, value_of(a, rs2));
            atomic(
                value_of(a, rs1),
                width,
                AtomicOp::Amo(op),
                order,
                rd,
                operand,
            )
        }
        _ => system_plan(a, i, bits),
    }
}

/// The plan of one of the system's instructions.
fn system_plan(a: &Arch, i: Instr, bits: u32) -> Planned
    requires arch { IsArch a.now }
    requires decoded { IsDecoded i }
    ensures plan { result ≡ system_plan a.now i bits }
    ensures finishable { IsFinishable result }
    ensures even { a.now.pc % 2 ≡ 0 → HasEvenTarget i → HasEvenNext result }
{
    match i {
        Instr::Fence { fm, pred, succ } => fences(fm, pred, succ),
        Instr::FenceI => Planned::FenceI,
        Instr::Csr {
            op,
            number,
            rd,
            source,
            immediate,
        } => {
            let operand = csr_operand(a, source, immediate);
            let (reads, writes) = (reads_csr(op, rd), writes_csr(op, source));
            Planned::Csr {
                number,
                op,
                operand,
                reads,
                writes,
                rd,
            }
        }
        Instr::Sret => Planned::Returns { from_m: false },
        Instr::Mret => Planned::Returns { from_m: true },
        Instr::SfenceVma { rs1, rs2 } => pages(a, rs1, rs2),
        _ => done(0, 0, next_of(a, bits)),
    }
}

fn done(rd: u8, value: u64, next: u64) -> Planned
    ensures { result ≡ Planned.Done rd value next }
{
    Planned::Done { rd, value, next }
}

fn atomic(va: u64, width: u8, op: AtomicOp, order: Ordering, rd: u8, operand: u64) -> Planned
    ensures { result ≡ Planned.NeedsAtomic va width op order.aq order.rl rd operand }
{
    let Ordering { aq, rl } = order;
    Planned::NeedsAtomic {
        va,
        width,
        op,
        aq,
        rl,
        rd,
        operand,
    }
}

/// What a FENCE orders.
fn fences(fm: u8, pred: u8, succ: u8) -> Planned
    ensures { result ≡ fence_of fm pred succ }
{
    let is_tso = fm == 0b1000 && pred == 0b0011 && succ == 0b0011;
    let (before_reads, before_writes) = (pred >> 1 & 1 == 1, pred & 1 == 1);
    let (after_reads, after_writes) = (succ >> 1 & 1 == 1, succ & 1 == 1);
    Planned::Fences {
        ww: before_writes && after_writes,
        wr: before_writes && after_reads && !is_tso,
        rr: before_reads && after_reads,
    }
}

/// The pages of an SFENCE.VMA.
fn pages(a: &Arch, rs1: u8, rs2: u8) -> Planned
    requires arch { IsArch a.now }
    requires register { rs1 < 32 }
    ensures { result ≡ pages_of a.now rs1 rs2 }
{
    if rs2 != 0 {
        Planned::FencesPages {
            va: None,
            all: false,
        }
    } else if rs1 == 0 {
        Planned::FencesPages {
            va: None,
            all: true,
        }
    } else {
        Planned::FencesPages {
            va: Some(value_of(a, rs1)),
            all: false,
        }
    }
}

fn csr_operand(a: &Arch, source: u8, immediate: bool) -> u64
    requires arch { IsArch a.now }
    requires register { source < 32 }
    ensures { result ≡ csr_operand a.now source immediate }
{
    if immediate {
        u64::from(source)
    } else {
        value_of(a, source)
    }
}

/// The pc of the next instruction.
fn next_of(a: &Arch, bits: u32) -> u64
    ensures { result ≡ next_of a.now bits }
{
    let length = if bits & 3 == 3 { 4 } else { 2 };
    a.pc.wrapping_add(length)
}

/// The low bytes of a value, and else zero.
#[tactic(auto, unfolding(dt_alu::specs::Extend::extend_value))]
fn low_bytes(width: u8, value: u64) -> u64
    requires { IsAccessWidth width }
    ensures { result ≡ low_bytes_of width value }
{
    extend(width, false, value)
}
