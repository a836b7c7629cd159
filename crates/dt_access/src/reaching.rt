ghost use Rattle.std.specs.Prelude.{◌≡◌};
ghost use Rattle.dt_access.specs.Reaching.{is_reachable, reached};

use dt_record::{RAM_START, is_in_ram};
use dt_walk::WalkAnswer;

/// Whether an access may reach the physical address. Devices lie below RAM.
fn is_reachable(ram_only: bool, addr: u64) -> bool
    ensures { result ≡ is_reachable ram_only addr }
{
    is_in_ram(addr) || (!ram_only && addr < RAM_START)
}

/// The outcome of an access by the answer of its walk: an access fault in place of an address at which
/// there is nothing, or with `ram_only` of one outside RAM. `ram_only` is for fetches, LR, SC and
/// atomics.
pub fn reached(ram_only: bool, answer: WalkAnswer) -> WalkAnswer
    ensures { result ≡ reached ram_only answer }
{
    match answer {
        WalkAnswer::Page(addr) if !is_reachable(ram_only, addr) => WalkAnswer::AccessFault,
        _ => answer,
    }
}
