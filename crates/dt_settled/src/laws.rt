//! Laws of the definitions, for the crates above. The functions do nothing.
ghost use Rattle.dt_settled.specs.AllWrites.{FrontsTellAllWrites, AllWritesArePromised, FileWritesMayBeAll, OrderlyWritesMayBeAll};
ghost use Rattle.dt_settled.specs.Laws.{SeeingStarts, SeeingGoesOn, EarlyWritesHaveSettled, SoundNotesAreApart, FileWritesAreTold};

use dt_core::{below_mark_may_be_judged, writes_below_mark_are_all};
use dt_writes::{file_history_is_kept, writes_stand_in_order};

/// A new memory stands for no notes and for any writes.
pub fn seeing_starts()
    ensures { SeeingStarts }
{}

/// A memory that stands for all notes stands for so many of them when more follow.
pub fn seeing_goes_on()
    ensures { SeeingGoesOn }
{}

/// For a record below the mark, all writes of its cycle and of earlier ones have settled.
pub fn early_writes_have_settled()
    ensures { EarlyWritesHaveSettled }
{}

/// Sound notes announce no two writes with one key.
pub fn sound_notes_are_apart()
    ensures { SoundNotesAreApart }
{
    writes_stand_in_order();
}

/// Where notes hold exactly the writes of a file below a mark, they tell them as a look is promised.
pub fn file_writes_are_told()
    ensures { FileWritesAreTold }
{}

/// What may be all writes by some notes may be so by each front of them.
pub fn fronts_tell_all_writes()
    ensures { FrontsTellAllWrites }
{}

/// What may be all writes by some notes is as a look at each front of them is promised.
pub fn all_writes_are_promised()
    ensures { AllWritesArePromised }
{}

/// By the history of sound lists, the writes of the file may be all writes.
pub fn file_writes_may_be_all()
    ensures { FileWritesMayBeAll }
{
    writes_below_mark_are_all();
    file_history_is_kept();
    writes_stand_in_order();
}

/// By a history in which each hart tells its writes in the order of their cycles, the announced writes
/// may be all writes.
pub fn orderly_writes_may_be_all()
    ensures { OrderlyWritesMayBeAll }
{
    below_mark_may_be_judged();
}
