ghost use Rattle.std.specs.Prelude.{◌≡◌, ◌≤◌, length, IsTrue};
ghost use Rattle.dt_record.specs.Lawful.{is_instruction};
ghost use Rattle.dt_step.specs.State.{IsArch};
ghost use Rattle.dt_traps.specs.Instructions.{access_address, address_in, own_check, plan_check, planned, refused};

use crate::faults::{Raised, fault};
use dt_access::{atomic_access, walk_args};
use dt_csr::cause::ILLEGAL_INSTRUCTION;
use dt_reference::meaning;
use dt_rules::{Misfit, NO_NUMBER, Reason};
use dt_step::{Arch, Planned, plan};
use dt_versions::{Moments, Span};
use dt_walk::Access;

/// What the instruction with these bits asks for. Bits with no meaning are an illegal instruction.
pub fn planned(a: &Arch, bits: u32) -> Planned
    requires arch { IsArch a.now }
    requires instruction { IsTrue (is_instruction bits) }
    ensures { result ≡ planned a.now bits }
{
    match meaning(bits) {
        Some(i) => plan(a, i, bits),
        None => Planned::Raises {
            cause: ILLEGAL_INSTRUCTION,
            tval: u64::from(bits),
        },
    }
}

fn refused(due: u64, cause: u64) -> Misfit
    ensures { result ≡ refused due cause }
{
    Misfit {
        reason: Reason::Cause,
        expected: due,
        found: cause,
    }
}

/// Whether an instruction with this plan may raise the cause. `window` is for the page of the
/// address that it accesses.
pub fn plan_trap(
    m: &Moments,
    window: Span,
    a: &Arch,
    p: Planned,
    cause: u64,
) -> Result<Raised, Misfit>
    requires within { window.last ≤ length m.now.writes }
    requires arch { IsArch a.now }
    ensures { result ≡ plan_check m.now.image m.now.writes window a.now p cause }
{
    match p {
        Planned::Raises { cause: due, tval } => own_cause(due, tval, cause),
        Planned::NeedsLoad { va, .. } => {
            fault(m, window, walk_args(a, Access::Load, va), false, cause)
        }
        Planned::NeedsStore { va, .. } => {
            fault(m, window, walk_args(a, Access::Store, va), false, cause)
        }
        Planned::NeedsAtomic { va, op, .. } => {
            fault(m, window, walk_args(a, atomic_access(op), va), true, cause)
        }
        _ => Err(refused(NO_NUMBER, cause)),
    }
}

/// Whether the cause is the one that an instruction raises by itself.
fn own_cause(due: u64, tval: u64, cause: u64) -> Result<Raised, Misfit>
    ensures { result ≡ own_check due tval cause }
{
    if cause == due {
        Ok(Raised { stale: false, tval })
    } else {
        Err(refused(due, cause))
    }
}

fn address_in(p: Planned) -> Option<u64>
    ensures { result ≡ address_in p }
{
    match p {
        Planned::NeedsLoad { va, .. }
        | Planned::NeedsStore { va, .. }
        | Planned::NeedsAtomic { va, .. } => Some(va),
        _ => None,
    }
}

/// The virtual address that the instruction with these bits accesses: that of a load, a store or an
/// atomic that raises nothing by itself. The bits may be any, as those of a trap.
pub fn access_address(a: &Arch, bits: u32) -> Option<u64>
    requires { IsArch a.now }
    ensures { result ≡ access_address a.now bits }
{
    if bits % 4 == 3 || bits < 0x1_0000 {
        address_in(planned(a, bits))
    } else {
        None
    }
}
