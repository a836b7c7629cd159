//! Laws of the definitions, for the crates above. The functions do nothing.
ghost use Rattle.dt_intake.specs.Laws.{UsableFrontIsLongest, UsableFrontGrows, FileRecordsAreUsable, NothingIsTold, TakingKeepsTold, RoomKeepsTold, TellingGoesOn, OwnNotesDecide, NewsIsOfOneHart, ToldIsAnnounced};

/// The usable records are the longest front of the taken ones in which each may come next.
pub fn usable_front_is_longest()
    ensures { UsableFrontIsLongest }
{}

/// The usable records stay usable as more are taken.
pub fn usable_front_grows()
    ensures { UsableFrontGrows }
{}

/// Where what was taken of a hart is a front of its records in a file, all of it is usable.
pub fn file_records_are_usable()
    ensures { FileRecordsAreUsable }
{}

/// Before anything is taken there is nothing to be told.
pub fn nothing_is_told()
    ensures { NothingIsTold }
{}

/// Notes say of a hart what they said before a record more was taken of it.
pub fn taking_keeps_told()
    ensures { TakingKeepsTold }
{}

/// Room that is made for records changes nothing of what notes say.
pub fn room_keeps_told()
    ensures { RoomKeepsTold }
{}

/// Notes and then the news of a hart say all that there is to tell of it.
pub fn telling_goes_on()
    ensures { TellingGoesOn }
{}

/// What notes say of a hart they say by the notes of this hart: notes of other harts may stand between.
pub fn own_notes_decide()
    ensures { OwnNotesDecide }
{}

/// The news of a hart has no note of another hart.
pub fn news_is_of_one_hart()
    ensures { NewsIsOfOneHart }
{}

/// Where what was taken of a hart is a front of its records in a file, and all of them once the feed
/// has ended, the notes announce the hart as the watermark law asks.
pub fn told_is_announced()
    ensures { ToldIsAnnounced }
{}
