//! Laws of the definitions, for the crates above. The functions do nothing.
ghost use Rattle.dt_atomics.specs.Laws.{AllowedAtomicsAreExact, AtomicsHaveAnAnswer, AtomicsHaveOneAnswer, FirstWritesDecideAtomics};

use dt_loads::known_keys_are_decided;

/// An atomic has one answer.
pub fn atomics_have_one_answer()
    ensures { AtomicsHaveOneAnswer }
{}

/// Whatever an atomic is, it has an answer.
pub fn atomics_have_an_answer()
    ensures { AtomicsHaveAnAnswer }
{
    known_keys_are_decided();
}

/// Writes of later cycles do not change the answer to an atomic.
pub fn first_writes_decide_atomics()
    ensures { FirstWritesDecideAtomics }
{}

/// An allowed atomic is as its instruction asks, and what it read has its sources.
pub fn allowed_atomics_are_exact()
    ensures { AllowedAtomicsAreExact }
{}
