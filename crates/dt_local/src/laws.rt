//! Laws of the definitions, for the crates above. The functions do nothing.
ghost use Rattle.dt_local.specs.LocalMemory.{GreaterBoundsBoth};
ghost use Rattle.dt_local.specs.Marks.{MarksStayLive};

/// A key does not stand below the greater of two exactly where it stands below neither.
pub fn greater_bounds_both()
    ensures { GreaterBoundsBoth }
{}

/// What is undone to, or forgotten before, leaves the marks on its other side as they were.
pub fn marks_stay_live()
    ensures { MarksStayLive }
{}
