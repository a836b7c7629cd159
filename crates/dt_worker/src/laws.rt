//! Laws of the definitions, for the crates above. The functions do nothing.
ghost use Rattle.dt_worker.specs.Laws.{OutcomesOverItsOwnHistory};

use dt_settled::orderly_writes_may_be_all;

/// Where each hart told its writes in the order of their cycles, as far as a worker's pass has seen,
/// the worker's outcomes are the judgement over the writes that this history announces.
pub fn outcomes_over_its_own_history()
    ensures { OutcomesOverItsOwnHistory }
{
    orderly_writes_may_be_all();
}
