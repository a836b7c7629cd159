//! Laws of the judgement, for the crates above. The functions do nothing.
ghost use Rattle.dt_judge.specs.Laws.{EarlierMomentsDecide, LaterWritesDecideNothing, RecordsHaveOneFinding, RunsHaveAnEnd, RunsHaveOneEnd};

use dt_atomics::{atomics_have_an_answer, atomics_have_one_answer, first_writes_decide_atomics};
use dt_checks::first_writes_decide_checks;
use dt_decode::meaning_is_well_formed;
use dt_hart::fences_are_earlier;
use dt_loads::{loads_have_an_answer, loads_have_one_answer};
use dt_reference::actions_go_on;
use dt_refills::first_writes_decide_refills;
use dt_sources::{least_choice_goes_on, least_choice_is_least};
use dt_traps::first_writes_decide_traps;
use dt_windows::last_fences_are_below;

/// The judgement of a record is determined by what the record is judged against.
pub fn records_have_one_finding()
    ensures { RecordsHaveOneFinding }
{
    atomics_have_one_answer();
    loads_have_one_answer();
}

/// Only the moments at which the hart's earlier loads read count.
pub fn earlier_moments_decide()
    ensures { EarlierMomentsDecide }
{}

/// What is found of a record rests on the writes up to the record's cycle: whoever has these may
/// judge it, whatever is written later.
pub fn later_writes_decide_nothing()
    ensures { LaterWritesDecideNothing }
{
    fences_are_earlier();
    last_fences_are_below();
    first_writes_decide_atomics();
    first_writes_decide_checks();
    first_writes_decide_refills();
    first_writes_decide_traps();
    records_have_one_finding();
    atomics_have_an_answer();
    loads_have_an_answer();
    meaning_is_well_formed();
    least_choice_goes_on();
    least_choice_is_least();
}

/// How far a hart's records are allowed, and why no further, is determined by the records, the
/// image and the writes: there is but one least fitting assignment of moments to the loads.
pub fn runs_have_one_end()
    ensures { RunsHaveOneEnd }
{
    records_have_one_finding();
    earlier_moments_decide();
    least_choice_is_least();
}

/// Whatever a hart's records, the image and the writes are, the records are allowed up to some place,
/// and the next one, if any, has a reason: the definition of a run is nowhere without a value.
pub fn runs_have_an_end()
    ensures { RunsHaveAnEnd }
{
    atomics_have_an_answer();
    loads_have_an_answer();
    meaning_is_well_formed();
    least_choice_goes_on();
    least_choice_is_least();
    earlier_moments_decide();
    actions_go_on();
}
