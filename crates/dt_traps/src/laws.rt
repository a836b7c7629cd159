//! Laws of the definitions, for the crates above.
ghost use Rattle.dt_traps.specs.Exact.{TrapsAreExact};
ghost use Rattle.dt_traps.specs.Laws.{SameTraps};

use dt_checks::first_writes_decide_checks;
use dt_translate::{a_moment_is_found, first_writes_decide};

/// The checks of a trap depend only on the writes before the ends of its spans.
pub fn first_writes_decide_traps()
    ensures { SameTraps }
{
    first_writes_decide();
    first_writes_decide_checks();
}

/// A trap is allowed exactly where it is one of its kind: an enabled interrupt, a halfword that some
/// moment cannot fetch, or an instruction that was fetched and raises the cause, by itself or at some
/// moment by its access.
pub fn allowed_traps_are_exact()
    ensures { TrapsAreExact }
{
    a_moment_is_found();
}
