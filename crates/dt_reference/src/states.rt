ghost use Rattle.std.specs.Prelude.{◌≡◌, ◌↔◌, IsTrue};
ghost use Rattle.dt_record.specs.Lawful.{IsLawful, is_instruction};
ghost use Rattle.dt_step.specs.Plans.{IsAnswerTo, length_of};
ghost use Rattle.dt_step.specs.State.{IsArch, IsReachable};
ghost use Rattle.dt_reference.specs.Run.{CanFollow, CanRetire, after_instruction, after_record, answer_to, shown_as, start_of};

use crate::meanings::meaning;
use dt_csr::{CsrRead, read};
use dt_record::{Body, Record};
use dt_step::{Answer, Arch, Planned, finish, plan, reset, trap};

/// A hart after a reset, in a file that does or does not let harts use Sv48.
pub fn start(hart: u8, wide: bool) -> Arch
    ensures value { result ≡ start_of hart wide }
    ensures arch { IsArch result }
    ensures reachable { IsReachable result }
{
    let mut a = reset(hart);
    a.csrs.wide = wide;
    a
}

/// What a plan is given, where the record has this value.
pub fn answer(a: &Arch, p: Planned, found: u64) -> Answer
    ensures answer { result ≡ answer_to a.now p found }
    ensures asked { IsAnswerTo p result }
{
    match p {
        Planned::NeedsLoad { .. } | Planned::NeedsAtomic { .. } => Answer::Value(found),
        Planned::Csr {
            number,
            reads: true,
            ..
        } => { Answer::Value(shown_as(read(&a.csrs, a.mode, a.hart, number), found)) }
        _ => Answer::Nothing,
    }
}

fn shown_as(shown: CsrRead, found: u64) -> u64
    ensures { result ≡ shown_as shown found }
{
    match shown {
        CsrRead::Value(value) => value,
        CsrRead::Counter(_) | CsrRead::Pending(_) | CsrRead::Illegal => found,
    }
}

/// Whether the record's instruction, where it retires one, can retire in this state.
pub fn can_follow(a: &Arch, event: &Record) -> bool
    requires arch { IsArch a.now }
    requires lawful { IsLawful event.now }
    ensures { IsTrue result ↔ CanFollow a.now event.now.body }
{
    match event.body {
        Body::Commit { retire } | Body::Load { retire, .. } | Body::Atomic { retire, .. } => {
            can_retire(a, retire.bits)
        }
        Body::Store { bits, .. } => can_retire(a, bits),
        Body::Trap { .. }
        | Body::Regs { .. }
        | Body::Csrs { .. }
        | Body::Drain { .. }
        | Body::Refill { .. }
        | Body::Beat => true,
    }
}

fn can_retire(a: &Arch, bits: u32) -> bool
    requires arch { IsArch a.now }
    requires instruction { IsTrue (is_instruction bits) }
    ensures { IsTrue result ↔ CanRetire a.now bits }
{
    match meaning(bits) {
        None => false,
        Some(i) => match plan(a, i, bits) {
            Planned::Raises { .. } => false,
            _ => true,
        },
    }
}

/// Takes the state to that after the record.
pub fn advance(a: &mut Arch, event: &Record)
    requires arch { IsArch a.old }
    requires allowed { CanFollow a.old event.now.body }
    ensures state { a.new ≡ after_record a.old event.now }
    ensures arch { IsArch a.new }
    ensures reachable { IsReachable a.old → IsReachable a.new }
{
    match event.body {
        Body::Commit { retire } | Body::Load { retire, .. } | Body::Atomic { retire, .. } => {
            retire_with(a, retire.bits, retire.value)
        }
        Body::Store { bits, value, .. } => retire_with(a, bits, value),
        Body::Trap { cause, tval, .. } => trap(a, cause, tval),
        Body::Regs { .. }
        | Body::Csrs { .. }
        | Body::Drain { .. }
        | Body::Refill { .. }
        | Body::Beat => {}
    }
}

/// Retires the instruction with these bits, whose record has this value.
fn retire_with(a: &mut Arch, bits: u32, found: u64)
    requires arch { IsArch a.old }
    requires retires { CanRetire a.old bits }
    ensures state { a.new ≡ after_instruction a.old bits found }
    ensures arch { IsArch a.new }
    ensures reachable { IsReachable a.old → IsReachable a.new }
{
    if let Some(i) = meaning(bits) {
        let p = plan(a, i, bits);
        let given = answer(a, p, found);
        finish(a, length(bits), p, given);
    }
}

fn length(bits: u32) -> u8
    ensures { result ≡ length_of bits }
{
    if bits % 4 == 3 { 4 } else { 2 }
}
