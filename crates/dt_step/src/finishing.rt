ghost use Rattle.std.specs.Prelude.{◌≡◌, ◌<◌, ◌⊎◌, ℕ, IsTrue, slice_index};
ghost use Rattle.dt_csr.specs.declared.state.Csrs.{Csrs};
ghost use Rattle.dt_csr.specs.Kept.{AreKeptInBounds, NamesMode};
ghost use Rattle.dt_csr.specs.Modes.{IsMode};
ghost use Rattle.dt_decode.specs.Decoded.{IsDecoded};
ghost use Rattle.dt_decode.specs.declared.instructions.Instr.{Instr};
ghost use Rattle.dt_step.specs.State.{IsArch, IsReachable, register, with_register, further};
ghost use Rattle.dt_step.specs.Plans.{plan_of, length_of, IsFinishable, IsAnswerTo, HasEvenNext, value_in};
ghost use Rattle.dt_step.specs.Steps.{finish_of, step_of, csrs_after, csr_value, floor_after, value_to_write, after_read, returned_by_mret, returned_by_sret};

use crate::{Answer, Arch, Planned};
use dt_csr::{CsrRead, Csrs, mret, read, sret, write};
use dt_decode::CsrOp;

/// What a CSR instruction does to the register with this number: `op` with `operand` where it writes.
#[derive(Clone, Copy, Debug)]
struct CsrAccess {
    number: u16,
    op: CsrOp,
    operand: u64,
    writes: bool,
}

/// Finishes a plan that `plan` gave for this state and that raises nothing, with the answer that it
/// asks for. `len` is the length of the instruction in bytes.
pub fn finish(a: &mut Arch, len: u8, p: Planned, answer: Answer)
    requires arch { IsArch a.old }
    requires len { (len ≡ 2) ⊎ (len ≡ 4) }
    requires plan { IsFinishable p }
    requires answer { IsAnswerTo p answer }
    ensures state { a.new ≡ finish_of a.old len p answer }
    ensures step { (i : Instr) (bits : ℕ) → IsDecoded i → p ≡ plan_of a.old i bits → len ≡ length_of bits
        → a.new ≡ step_of a.old i bits (value_in answer) }
    ensures arch { IsArch a.new }
    ensures reachable { IsReachable a.old → HasEvenNext p → IsReachable a.new }
{
    match p {
        Planned::Done { rd, value, next } => {
            set_register(a, rd, value);
            a.pc = next;
        }
        Planned::NeedsLoad { rd, .. } | Planned::NeedsAtomic { rd, .. } => {
            set_register(a, rd, value_in(answer));
            go_further(a, len);
        }
        Planned::Csr {
            number,
            op,
            operand,
            writes,
            rd,
            ..
        } => {
            let value = value_in(answer);
            let access = CsrAccess {
                number,
                op,
                operand,
                writes,
            };
            access_csr(a, access, rd, value);
            set_register(a, rd, value);
            go_further(a, len);
        }
        Planned::Returns { from_m: true } => return_by_mret(a),
        Planned::Returns { from_m: false } => return_by_sret(a),
        Planned::NeedsStore { .. }
        | Planned::Fences { .. }
        | Planned::FenceI
        | Planned::FencesPages { .. } => go_further(a, len),
        Planned::Raises { .. } => unreachable!(),
    }
}

/// The value of an answer, and 0 where it has none.
fn value_in(answer: Answer) -> u64
    ensures { result ≡ value_in answer }
{
    match answer {
        Answer::Value(value) => value,
        Answer::Nothing => 0,
    }
}

fn set_register(a: &mut Arch, r: u8, value: u64)
    requires { r < 32 }
    ensures state { a.new ≡ with_register a.old r value }
    ensures zero { slice_index a.old.x 0 ≡ 0 → slice_index a.new.x 0 ≡ 0 }
{
    if r != 0 {
        a.x[usize::from(r)] = value;
    }
}

fn go_further(a: &mut Arch, bytes: u8)
    ensures { a.new ≡ further a.old bytes }
{
    a.pc = a.pc.wrapping_add(u64::from(bytes));
}

fn return_by_mret(a: &mut Arch)
    requires { NamesMode a.old.csrs.mstatus }
    ensures state { a.new ≡ returned_by_mret a.old }
    ensures reachable { IsReachable a.old → IsReachable a.new }
    ensures mode { IsMode a.new.mode }
    ensures mpp { NamesMode a.new.csrs.mstatus }
{
    let (mode, pc) = mret(&mut a.csrs);
    a.mode = mode;
    a.pc = pc;
}

fn return_by_sret(a: &mut Arch)
    requires { NamesMode a.old.csrs.mstatus }
    ensures state { a.new ≡ returned_by_sret a.old }
    ensures reachable { IsReachable a.old → IsReachable a.new }
    ensures mode { IsMode a.new.mode }
    ensures mpp { NamesMode a.new.csrs.mstatus }
{
    let (mode, pc) = sret(&mut a.csrs);
    a.mode = mode;
    a.pc = pc;
}

/// Reads and writes a register of control and status, where the read into `rd` gave this value.
fn access_csr(a: &mut Arch, access: CsrAccess, rd: u8, value: u64)
    ensures state { a.new ≡ record a.old {
      csrs = csrs_after a.old access.number access.op access.operand access.writes rd value;
    } }
    ensures mpp { NamesMode a.old.csrs.mstatus → NamesMode a.new.csrs.mstatus }
    ensures keeps { AreKeptInBounds a.old.csrs → AreKeptInBounds a.new.csrs }
{
    let CsrAccess {
        number,
        op,
        operand,
        writes,
    } = access;
    let mode = a.mode;
    let shown = read(&a.csrs, mode, a.hart, number);
    let written = value_to_write(&a.csrs, shown, op, rd, value, operand);
    note(&mut a.csrs, shown, rd, value);
    if writes {
        let _ = write(&mut a.csrs, mode, number, written);
    }
}

/// Notes what a register showed that was read into `rd`.
fn note(c: &mut Csrs, shown: CsrRead, rd: u8, value: u64)
    ensures registers { c.new ≡ after_read c.old shown rd value }
    ensures mpp { NamesMode c.old.mstatus → NamesMode c.new.mstatus }
    ensures keeps { AreKeptInBounds c.old → AreKeptInBounds c.new }
{
    match shown {
        CsrRead::Counter(counter) if rd != 0 => c.set_floor(counter, value),
        _ => {}
    }
}

/// The value that a CSR instruction writes.
fn value_to_write(c: &Csrs, shown: CsrRead, op: CsrOp, rd: u8, value: u64, operand: u64) -> u64
    ensures { result ≡ value_to_write c.now shown op rd value operand }
{
    match shown {
        CsrRead::Counter(counter) if rd == 0 => floor_after(op, c.floor(counter), operand),
        _ => csr_value(op, value, operand),
    }
}

fn floor_after(op: CsrOp, floor: u64, operand: u64) -> u64
    ensures { result ≡ floor_after op floor operand }
{
    match op {
        CsrOp::Write => operand,
        CsrOp::Set => floor.max(operand),
        CsrOp::Clear => 0,
    }
}

/// The value that a CSR instruction makes of the register's old value and its operand.
pub fn csr_value(op: CsrOp, old: u64, operand: u64) -> u64
    ensures { result ≡ csr_value op old operand }
{
    match op {
        CsrOp::Write => operand,
        CsrOp::Set => old | operand,
        CsrOp::Clear => old & !operand,
    }
}
