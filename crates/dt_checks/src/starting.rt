ghost use Rattle.std.specs.Prelude.{◌≡◌, ◌%◌, length, IsTrue, IfOk};
ghost use Rattle.dt_record.specs.Lawful.{is_instruction};
ghost use Rattle.dt_step.specs.State.{IsArch};
ghost use Rattle.dt_checks.specs.Fetching.{SpansEndWithin};
ghost use Rattle.dt_checks.specs.Retiring.{IsRetired};
ghost use Rattle.dt_checks.specs.Starting.{fetched_check, start_check, started_check};

use crate::fetching::{FetchSpans, fetched};
use crate::retiring::retires;
use dt_rules::{Misfit, Reason};
use dt_step::{Arch, Planned};
use dt_versions::Moments;

/// What is known of a record whose instruction may have been fetched and can retire.
#[derive(Clone, Copy, Debug, PartialEq, Eq)]
pub struct Started {
    pub plan: Planned,
    /// Whether the fetch is by an older translation or from older memory.
    pub stale: bool,
}

fn retired_start(a: &Arch, bits: u32, tag: u8, stale: bool) -> Result<Started, Misfit>
    requires arch { IsArch a.now }
    requires instruction { IsTrue (is_instruction bits) }
    ensures value { result ≡ started_check a.now bits tag stale }
    ensures retired { IfOk result (λ started. IsRetired a.now bits tag started.plan) }
{
    let plan = retires(a, bits, tag)?;
    Ok(Started { plan, stale })
}

fn fetched_start(
    m: &Moments,
    spans: FetchSpans,
    a: &Arch,
    bits: u32,
    tag: u8,
) -> Result<Started, Misfit>
    requires spans { SpansEndWithin spans (length m.now.writes) }
    requires arch { IsArch a.now }
    requires even { a.now.pc % 2 ≡ 0 }
    requires instruction { IsTrue (is_instruction bits) }
    ensures value { result ≡ fetched_check m.now.image m.now.writes spans a.now bits tag }
    ensures retired { IfOk result (λ started. IsRetired a.now bits tag started.plan) }
{
    let stale = fetched(m, spans, a, bits)?;
    retired_start(a, bits, tag, stale)
}

/// The checks that each record of a retired instruction begins with: its pc, its fetch, and that it
/// can retire in a record with this tag. The first misfit counts: of Pc, which expects the hart's
/// pc and found the record's, and then those of `fetched` and of `retires`.
pub fn start(
    m: &Moments,
    spans: FetchSpans,
    a: &Arch,
    pc: u64,
    bits: u32,
    tag: u8,
) -> Result<Started, Misfit>
    requires spans { SpansEndWithin spans (length m.now.writes) }
    requires arch { IsArch a.now }
    requires even { a.now.pc % 2 ≡ 0 }
    requires instruction { IsTrue (is_instruction bits) }
    ensures value { result ≡ start_check m.now.image m.now.writes spans a.now pc bits tag }
    ensures retired { IfOk result (λ started. IsRetired a.now bits tag started.plan) }
{
    if pc != a.pc {
        return Err(Misfit {
            reason: Reason::Pc,
            expected: a.pc,
            found: pc,
        });
    }
    fetched_start(m, spans, a, bits, tag)
}
