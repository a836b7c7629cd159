//! Laws of the definitions, for the crates above.
ghost use Rattle.dt_windows.specs.Laws.{LastFencesAreBelow, OtherPlansKeepWindows, SpansHaveMoments};
ghost use Rattle.dt_windows.specs.Marks.{MarksStayLive};

use dt_versions::visible_is_interval;

/// A plan that is no fence leaves what stands for the fences.
pub fn other_plans_keep_windows()
    ensures { OtherPlansKeepWindows }
{}

/// The last fence of a kind stands before a key that all fences stand before.
pub fn last_fences_are_below()
    ensures { LastFencesAreBelow }
{}

/// The span from a fence to a later record is never empty.
pub fn spans_have_moments()
    ensures { SpansHaveMoments }
{
    visible_is_interval();
}

/// What is undone to, or forgotten before, leaves the marks on its other side as they were.
pub fn marks_stay_live()
    ensures { MarksStayLive }
{}
