//! All lanes of a worker, one after another.
ghost use Rattle.std.specs.Prelude.{◌≡◌, true, All, IsTrue};
ghost use Rattle.dt_lane.specs.Lanes.{is_done};
ghost use Rattle.dt_worker.specs.Steps.{EachGoes, JudgesMore, TakesMore};

use dt_lane::Lane;
use dt_source::Gate;
use dt_versions::Moments;
use std::alloc::AllocError;

fn take_one<G: Gate>(lane: &mut Lane, worker: u8, gate: &G) -> Result<bool, AllocError>
    ensures { TakesMore lane.old lane.new }
{
    lane.take_in(worker, gate)
}

/// Takes what the queues hold, up to a bound for each. It answers whether something came.
pub(crate) fn take_all<G: Gate>(
    lanes: &mut Vec<Lane>,
    worker: u8,
    gate: &G,
) -> Result<bool, AllocError>
    ensures { EachGoes TakesMore lanes.old.items lanes.new.items }
{
    let mut came = false;
    for i in 0..lanes.len() {
        if take_one(&mut lanes[i], worker, gate)? {
            came = true;
        }
    }
    Ok(came)
}

fn judge_one<G: Gate>(
    lane: &mut Lane,
    m: &Moments,
    least: Option<u64>,
    worker: u8,
    gate: &G,
) -> Result<bool, AllocError>
    ensures { JudgesMore m.now least lane.old lane.new }
{
    lane.judge_ready(m, least, worker, gate)
}

/// Judges what is below the mark. It answers whether something was judged.
pub(crate) fn judge_all<G: Gate>(
    lanes: &mut Vec<Lane>,
    m: &Moments,
    least: Option<u64>,
    worker: u8,
    gate: &G,
) -> Result<bool, AllocError>
    ensures { EachGoes (JudgesMore m.now least) lanes.old.items lanes.new.items }
{
    let mut judged = false;
    for i in 0..lanes.len() {
        if judge_one(&mut lanes[i], m, least, worker, gate)? {
            judged = true;
        }
    }
    Ok(judged)
}

/// Whether all lanes are done.
pub(crate) fn are_done(lanes: &[Lane]) -> bool
    ensures { result ≡ true → All (λ l. IsTrue (is_done l)) lanes.now }
{
    for lane in lanes {
        if !lane.is_done() {
            return false;
        }
    }
    true
}
