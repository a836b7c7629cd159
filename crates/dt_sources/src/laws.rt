//! Laws of the definitions, for the crates above. The functions do nothing.
ghost use Rattle.dt_sources.specs.AtKeys.{ReadsAtKeysFit};
ghost use Rattle.dt_sources.specs.Choice.{LeastChoiceIsLeast, RefusalIsExact, FrontsHaveSources, LeastChoiceGoesOn};
ghost use Rattle.dt_sources.specs.Knowing.{KnownIsFloor, KnownFitIsFit, KnowingGoesOn, NotesAreAdded};

use dt_versions::{own_moments_are_visible, sources_rise};

/// Where each load of a hart takes the least moment that fits, its moments are those of the least
/// fitting assignment, and the other way round.
pub fn least_choice_is_least()
    ensures { LeastChoiceIsLeast }
{
    sources_rise();
}

/// Where no moment fits a load after least choices, no assignment of the loads up to it fits.
pub fn refusal_is_exact()
    ensures { RefusalIsExact }
{
    sources_rise();
}

/// Where some actions have no sources, no longer list of actions has any.
pub fn fronts_have_sources()
    ensures { FrontsHaveSources }
{}

/// Least choices are continued by the least moment that fits the next load.
pub fn least_choice_goes_on()
    ensures { LeastChoiceGoesOn }
{}

/// What local memory knows asks of a load's sources what the floor of the earlier loads asks.
pub fn known_is_floor()
    ensures { KnownIsFloor }
{}

/// A moment fits a load with local memory exactly where it fits after the earlier loads' moments.
pub fn known_fit_is_fit()
    ensures { KnownFitIsFit }
{}

/// Local memory goes on knowing what it has to, where what an action had and wrote is noted.
pub fn knowing_goes_on()
    ensures { KnowingGoesOn }
{}

/// What is to be noted of an action: what it had a byte from and, where its record writes, its own key.
pub fn notes_are_added()
    ensures { NotesAreAdded }
{}

/// Where each load reads memory as it stands when its turn comes, the moments of their keys fit.
pub fn reads_at_keys_fit()
    ensures { ReadsAtKeysFit }
{
    sources_rise();
    own_moments_are_visible();
}
