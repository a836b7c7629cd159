//! Laws of the definitions, for the crates above. The functions do nothing.
ghost use Rattle.dt_runs.specs.Laws.{FileRecordsAreOwn, RunsComeToAnEnd};

use dt_writes::{own_writes_are_of_records, writes_stand_in_order};

/// The records of a hart of a file are all its own, among all writes of the file.
pub fn file_records_are_own()
    ensures { FileRecordsAreOwn }
{
    own_writes_are_of_records();
    writes_stand_in_order();
}

/// A run that has failed, or to whose hart no more records come, says what all records of the hart
/// come to.
pub fn runs_come_to_an_end()
    ensures { RunsComeToAnEnd }
{}
