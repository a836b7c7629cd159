//! Laws of the definitions, for the crates above. The functions do nothing.
ghost use Rattle.dt_snapshot.specs.Laws.{NewerCutIsGreatest, NewCutsAreBetween};

/// The newer cut of a cycle is the greatest cut that is not above it.
pub fn newer_cut_is_greatest()
    ensures { NewerCutIsGreatest }
{}

/// A cycle reaches a new cut exactly where there is one up to it that the earlier cycle has not reached.
pub fn new_cuts_are_between()
    ensures { NewCutsAreBetween }
{}
