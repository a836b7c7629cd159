//! Laws of the definitions, for the crates above. The functions do nothing.
ghost use Rattle.dt_hart.specs.Standing.{FencesAreEarlier, HartsAreOfTheirSettings, KnowsAtNext};

use dt_judged::judged_goes_on;
use dt_sources::knowing_goes_on;

/// What stands for a setting knows what it has to at the key of the next record.
pub fn known_at_next()
    ensures { KnowsAtNext }
{
    knowing_goes_on();
    judged_goes_on();
}

/// The fences of a hart's records stand before its next record.
pub fn fences_are_earlier()
    ensures { FencesAreEarlier }
{}

/// What stands for a setting has its hart number, and may use Sv48 exactly where the setting says so.
pub fn harts_are_of_their_settings()
    ensures { HartsAreOfTheirSettings }
{}
