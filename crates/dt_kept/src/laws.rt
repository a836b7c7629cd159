//! Laws of the definitions, for the crates above. The functions do nothing.
ghost use Rattle.dt_kept.specs.Laws.{CutsSplitRecords, FrontsAreBeforeCuts};

/// A hart's records below a cut are its first ones, since no stamp falls; those from the cut on
/// follow.
pub fn cuts_split_records()
    ensures { CutsSplitRecords }
{}

/// Where a hart's first records are below a cut and the others are not, these are its records
/// before the cut and from it on: a hart that stands before its first record from the cut on is in
/// its state at the cut.
pub fn fronts_are_before_cuts()
    ensures { FrontsAreBeforeCuts }
{}
