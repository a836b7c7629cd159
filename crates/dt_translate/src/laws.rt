//! Laws of the definitions, for the crates above. The functions do nothing.
ghost use Rattle.dt_translate.specs.Laws.{AMomentAllows, APairFetches, ChosenIsNewest, ChosenPairIsNewest, SameFirstWrites, SameWindows, StaysUntranslated};

/// What is in memory and what a translation gives at a moment depends only on the writes before it.
pub fn first_writes_decide()
    ensures moments { SameFirstWrites }
    ensures choices { SameWindows }
{}

/// Where addresses are not translated, no page table is read.
pub fn untranslated_stays()
    ensures { StaysUntranslated }
{}

/// A moment that passes the test of a search makes the search find one, and the newest is found.
pub fn a_moment_is_found()
    ensures allowed { AMomentAllows }
    ensures fetched { APairFetches }
    ensures newest { ChosenIsNewest }
    ensures newest_pair { ChosenPairIsNewest }
{}
