ghost use Rattle.std.specs.Prelude.{◌≡◌, ◌≤◌, length, OnOk};
ghost use Rattle.dt_walk.specs.Walk.{CanWalk};
ghost use Rattle.dt_checks.specs.Addresses.{IsPlaceOf, address_check, page_or_none};

use crate::fetching::is_older;
use dt_rules::{Misfit, NO_NUMBER, Reason};
use dt_translate::{allowed, outcome};
use dt_versions::{Moments, Span};
use dt_walk::{WalkAnswer, WalkArgs, leaf_decides};

fn page_or_none(answer: WalkAnswer) -> u64
    ensures { result ≡ page_or_none answer }
{
    match answer {
        WalkAnswer::Page(addr) => addr,
        WalkAnswer::PageFault | WalkAnswer::AccessFault => NO_NUMBER,
    }
}

/// Whether the access may have reached the physical address only by an older translation: the
/// newest moment of the window that gives the address is not the last there. `ram_only` is for LR,
/// SC and atomics. A misfit is of Address: it expects the address at the window's last moment, or
/// `NO_NUMBER` where that gives none, and found is `paddr`.
pub fn address(
    m: &Moments,
    window: Span,
    args: WalkArgs,
    ram_only: bool,
    paddr: u64,
) -> Result<bool, Misfit>
    requires within { window.last ≤ length m.now.writes }
    requires args { CanWalk args }
    ensures value { result ≡ address_check m.now.image m.now.writes window args ram_only paddr }
    ensures place { OnOk result (IsPlaceOf args.va ram_only paddr) }
{
    leaf_decides();
    match allowed(m, window, args, ram_only, WalkAnswer::Page(paddr)) {
        Some(k) => Ok(is_older(window, k)),
        None => Err(Misfit {
            reason: Reason::Address,
            expected: page_or_none(outcome(m, window.last, args, ram_only)),
            found: paddr,
        }),
    }
}
