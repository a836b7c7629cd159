//! Laws of the definitions, for the crates above. The functions do nothing.
ghost use Rattle.dt_verdict.specs.Laws.{VerdictsAreLeast};

/// The verdict that the definition computes is one of the least failures that it asks for, whatever
/// the outcomes are.
pub fn verdicts_are_least()
    ensures { VerdictsAreLeast }
{}
