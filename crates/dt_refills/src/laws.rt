//! Laws of the definitions, for the crates above. The functions do nothing.
ghost use Rattle.dt_refills.specs.Laws.{SameRefills};

/// The check of a refill depends only on the writes before the end of its span.
pub fn first_writes_decide_refills()
    ensures { SameRefills }
{}
