//! Laws of the definitions, for the crates above. The functions do nothing.
ghost use Rattle.dt_core.specs.Laws.{WritesBelowMarkAreAll, WritesUntilJudgedAreAll, WritesUntilPassedAreAll, BelowMarkMayBeJudged, WritesUntilMarkAreAll, EqualMarkIsEnough};
ghost use Rattle.dt_core.specs.Runs.{EveryRunHolds};

use crate::judgements::Judgement;

/// Every front of the history of sound lists holds exactly the file's writes below its least mark,
/// and all of them where all harts have ended.
pub fn writes_below_mark_are_all()
    ensures { WritesBelowMarkAreAll }
{}

/// Where a record may be judged by a front of the history, the front's writes up to the record's
/// cycle are exactly those of the file.
pub fn writes_until_judged_are_all()
    ensures { WritesUntilJudgedAreAll }
{}

/// The same where each hart has passed the record's cycle in the front, by any mark or its end.
pub fn writes_until_passed_are_all()
    ensures { WritesUntilPassedAreAll }
{}

/// A record of a cycle below the least mark may be judged.
pub fn below_mark_may_be_judged()
    ensures { BelowMarkMayBeJudged }
{}

/// After any list of steps from the start: the lists are sound, each front of the history holds the
/// file's writes below its least mark, every outcome is the judgement over all writes of the file,
/// and every failure that was told is the hart's.
pub fn every_run_holds<J: Judgement>()
    ensures { EveryRunHolds J.meaning }
{}

/// A front of a sound history need not hold the writes of the cycle of its least mark.
pub fn below_is_needed()
    ensures { WritesUntilMarkAreAll → ⊥ }
{}

/// It is not enough for judging a record that the marks are at its cycle.
pub fn strict_mark_is_needed()
    ensures { EqualMarkIsEnough → ⊥ }
{}
