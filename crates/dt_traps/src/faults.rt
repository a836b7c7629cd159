ghost use Rattle.std.specs.Prelude.{◌≡◌, ◌≤◌, length};
ghost use Rattle.dt_walk.specs.Walk.{CanWalk};
ghost use Rattle.dt_traps.specs.Faults.{cause_or_none, fault_check, fault_moment, fault_of};

use dt_access::{access_cause, fault_cause, page_cause};
use dt_checks::is_older;
use dt_rules::{Misfit, NO_NUMBER, Reason};
use dt_translate::{allowed, outcome};
use dt_versions::{Moments, Span};
use dt_walk::{Access, WalkAnswer, WalkArgs};

/// A trap whose cause is allowed.
#[derive(Clone, Copy, Debug, PartialEq, Eq)]
pub struct Raised {
    /// Whether a fetch or a translation is of an older moment than the last of its span.
    pub stale: bool,
    /// The expected tval.
    pub tval: u64,
}

fn cause_or_none(access: Access, outcome: WalkAnswer) -> u64
    ensures { result ≡ cause_or_none access outcome }
{
    fault_cause(access, outcome).unwrap_or(NO_NUMBER)
}

/// The outcome of a translation that raises the cause.
fn fault_of(access: Access, cause: u64) -> Option<WalkAnswer>
    ensures { result ≡ fault_of access cause }
{
    if cause == page_cause(access) {
        Some(WalkAnswer::PageFault)
    } else if cause == access_cause(access) {
        Some(WalkAnswer::AccessFault)
    } else {
        None
    }
}

/// The newest moment of the window at which the access raises the cause.
fn fault_moment(
    m: &Moments,
    window: Span,
    args: WalkArgs,
    ram_only: bool,
    cause: u64,
) -> Option<u32>
    requires within { window.last ≤ length m.now.writes }
    requires args { CanWalk args }
    ensures { result ≡ fault_moment m.now.image m.now.writes window args ram_only cause }
{
    match fault_of(args.access, cause) {
        Some(fault) => allowed(m, window, args, ram_only, fault),
        None => None,
    }
}

/// Whether the access may raise the cause: some moment of the window has to.
pub fn fault(
    m: &Moments,
    window: Span,
    args: WalkArgs,
    ram_only: bool,
    cause: u64,
) -> Result<Raised, Misfit>
    requires within { window.last ≤ length m.now.writes }
    requires args { CanWalk args }
    ensures { result ≡ fault_check m.now.image m.now.writes window args ram_only cause }
{
    match fault_moment(m, window, args, ram_only, cause) {
        Some(k) => Ok(Raised {
            stale: is_older(window, k),
            tval: args.va,
        }),
        None => Err(Misfit {
            reason: Reason::Cause,
            expected: cause_or_none(args.access, outcome(m, window.last, args, ram_only)),
            found: cause,
        }),
    }
}
