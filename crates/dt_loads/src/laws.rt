//! Laws of the definitions, for the crates above. The functions do nothing.
ghost use Rattle.dt_loads.specs.Reading.{KnownKeysAreDecided, LoadsHaveAnAnswer, LoadsHaveOneAnswer};

use dt_sources::{least_choice_goes_on, least_choice_is_least, refusal_is_exact};

/// A load of a hart has one answer, which its earlier loads' moments decide.
pub fn loads_have_one_answer()
    ensures { LoadsHaveOneAnswer }
{}

/// Whatever a load of a hart is, it has an answer.
pub fn loads_have_an_answer()
    ensures { LoadsHaveAnAnswer }
{
    least_choice_goes_on();
    least_choice_is_least();
    refusal_is_exact();
}

/// A key stands above all that a hart knows for a byte, or it does not.
pub fn known_keys_are_decided()
    ensures { KnownKeysAreDecided }
{}
