ghost use Rattle.std.specs.Prelude.{◌≡◌, IsTrue, OnOk, IfOk};
ghost use Rattle.dt_decode.specs.Decoded.{IsDecoded};
ghost use Rattle.dt_record.specs.Lawful.{is_instruction};
ghost use Rattle.dt_step.specs.State.{IsArch};
ghost use Rattle.dt_checks.specs.Retiring.{IsRetired, due_tag, plan_check, raised, retire_check};

use dt_csr::cause::ILLEGAL_INSTRUCTION;
use dt_reference::meaning;
use dt_rules::{Misfit, NO_NUMBER, Reason};
use dt_step::{Arch, Planned, plan};

/// The tag of the kind of record that a plan needs.
fn due_tag(p: Planned) -> u8
    ensures { result ≡ due_tag p }
{
    match p {
        Planned::NeedsLoad { .. } => 5,
        Planned::NeedsStore { .. } => 6,
        Planned::NeedsAtomic { .. } => 7,
        _ => 1,
    }
}

fn raised(cause: u64) -> Misfit
    ensures { result ≡ raised cause }
{
    Misfit {
        reason: Reason::Raises,
        expected: cause,
        found: NO_NUMBER,
    }
}

/// The plan, where it raises nothing and needs a record with this tag.
fn due_plan(p: Planned, tag: u8) -> Result<Planned, Misfit>
    ensures { result ≡ plan_check p tag }
{
    if let Planned::Raises { cause, .. } = p {
        return Err(raised(cause));
    }
    let due = due_tag(p);
    if due == tag {
        Ok(p)
    } else {
        Err(Misfit {
            reason: Reason::Kind,
            expected: u64::from(due),
            found: u64::from(tag),
        })
    }
}

/// The plan of the instruction with these bits, where it can retire in this state in a record with
/// this tag. An instruction of 16 bits has an upper half of zero; tags are those of dt_record. A
/// misfit is of Raises, which expects the cause and found nothing (`NO_NUMBER`), or else of Kind,
/// which expects the tag that the instruction needs and found `tag`.
pub fn retires(a: &Arch, bits: u32, tag: u8) -> Result<Planned, Misfit>
    requires arch { IsArch a.now }
    requires instruction { IsTrue (is_instruction bits) }
    ensures value { result ≡ retire_check a.now bits tag }
    ensures retired { IfOk result (IsRetired a.now bits tag) }
{
    match meaning(bits) {
        Some(i) => due_plan(plan(a, i, bits), tag),
        None => Err(raised(ILLEGAL_INSTRUCTION)),
    }
}
