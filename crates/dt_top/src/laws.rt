//! Laws of the program's answer. The functions do nothing.
ghost use Rattle.dt_top.specs.Laws.{ARunHasAnAnswer, ARunHasOneAnswer, CheckAnswersAsPass};

use dt_pass::{a_file_has_a_check, a_file_has_one_check};
use dt_probe_file::{file_answers, one_list};

/// Whatever the words ask for, and whatever the bytes of the image and the probe file are, there is
/// an answer: the definition is nowhere without a value.
pub fn a_run_has_an_answer()
    ensures { ARunHasAnAnswer }
{
    one_list();
    file_answers();
    a_file_has_a_check();
}

/// No second answer meets the definition: the status and the bytes written are determined by what the
/// words ask for and by the bytes of the image and the probe file.
pub fn a_run_has_one_answer()
    ensures { ARunHasOneAnswer }
{
    one_list();
    a_file_has_one_check();
}

/// What `check` answers is what `pass` answers, for any number of workers: the status and the bytes
/// written depend on the image, the probe file and a wish for sources alone.
pub fn check_answers_as_pass()
    ensures { CheckAnswersAsPass }
{}
