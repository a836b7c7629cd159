//! Laws of the definitions, for the crates above.
ghost use Rattle.dt_checks.specs.Laws.{SameAddresses, SameFetches, SameHalves, SameStarts};

use dt_translate::first_writes_decide;

/// The checks depend only on the writes before the ends of their spans.
pub fn first_writes_decide_checks()
    ensures halves { SameHalves }
    ensures fetches { SameFetches }
    ensures starts { SameStarts }
    ensures addresses { SameAddresses }
{
    first_writes_decide();
}
