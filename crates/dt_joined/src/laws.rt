//! Laws of the definitions, for the crates above. The functions do nothing.
ghost use Rattle.dt_joined.specs.Laws.{OneTellerIsEnough, UntoldIsNotThere, JoinedListsAreSound, JoinedWritesMayBeAll};
ghost use Rattle.dt_joined.specs.Laws.{JoinedHartsAreFew, JoinedHartsAreJudged};
ghost use Rattle.dt_joined.specs.Laws.{JudgedHartsHaveRuns, OwnRecordsAreCounted, ConcludedIsChecked};

use dt_intake::{file_records_are_usable, nothing_is_told, own_notes_decide, told_is_announced};
use dt_runs::{file_records_are_own, runs_come_to_an_end};
use dt_settled::{file_writes_may_be_all, fronts_tell_all_writes};

/// Where the passes account for the history and one of them tells a hart, the history tells it.
pub fn one_teller_is_enough()
    ensures { OneTellerIsEnough }
{
    own_notes_decide();
}

/// A hart of which no pass has a note is not in the history.
pub fn untold_is_not_there()
    ensures { UntoldIsNotThere }
{}

/// The lists of a joined run are sound.
pub fn joined_lists_are_sound()
    ensures { JoinedListsAreSound }
{
    nothing_is_told();
    own_notes_decide();
    told_is_announced();
}

/// By each front of their history the writes of the file may be all writes.
pub fn joined_writes_may_be_all()
    ensures { JoinedWritesMayBeAll }
{
    joined_lists_are_sound();
    file_writes_may_be_all();
    fronts_tell_all_writes();
}

/// What came of the joined harts is their judgement over the file.
pub fn joined_harts_are_judged()
    ensures { JoinedHartsAreJudged }
{
    file_records_are_own();
    file_records_are_usable();
    joined_writes_may_be_all();
    one_teller_is_enough();
    untold_is_not_there();
}

/// No joined hart has more records than a file may have.
pub fn joined_harts_are_few()
    ensures { JoinedHartsAreFew }
{}

/// What came of a hart is its run to the end, as one thread judges it.
pub fn judged_harts_have_runs()
    ensures { JudgedHartsHaveRuns }
{
    runs_come_to_an_end();
}

/// A hart's own records are counted as those of the file.
pub fn own_records_are_counted()
    ensures { OwnRecordsAreCounted }
{}

/// A verdict, counts and notes of all harts are the check of the file.
pub fn concluded_is_checked()
    ensures { ConcludedIsChecked }
{}
