//! Laws of the definitions, for the crates above. The functions do nothing.
ghost use Rattle.dt_pass.specs.Laws.{AFileHasACheck, AFileHasOneCheck, FailIsFirst, PassIsAllAllowed};

use dt_judge::{runs_have_an_end, runs_have_one_end};
use dt_verdict::verdicts_are_least;
use dt_writes::writes_stand_in_order;

/// Where the verdict is Pass, each record of each hart is allowed.
pub fn pass_is_all_allowed()
    ensures { PassIsAllAllowed }
{}

/// Where the verdict is Fail, it names the failure with the least key among the harts' first
/// records that are not allowed.
pub fn fail_is_first()
    ensures { FailIsFirst }
{}

/// The verdict, the counts and the named records are determined by the image and the records.
pub fn a_file_has_one_check()
    ensures { AFileHasOneCheck }
{
    runs_have_one_end();
    writes_stand_in_order();
}

/// Whatever the image and the records are, there is a verdict over all harts with its counts and named
/// records: the definition of a check is nowhere without a value.
pub fn a_file_has_a_check()
    ensures { AFileHasACheck }
{
    runs_have_an_end();
    writes_stand_in_order();
    verdicts_are_least();
}
