//! The lanes at the beginning and at the end of a run.
ghost use Rattle.std.specs.Prelude.{◌≡◌, ◌≤◌, [], All, IfOk, vec_len, vec_capacity};
ghost use Rattle.dt_queue.specs.Queue.{taken};
ghost use Rattle.dt_worker.specs.LaneEnds.{AreLaneEnds, AreOpened, IsLaneEnd, IsOpened};

use dt_lane::{HartEnd, Lane};
use dt_queue::Take;
use std::alloc::{AllocError, Global};

fn open_one(alloc: Global, wide: bool, given: (u8, Take)) -> Lane
    requires untaken { taken given.1 ≡ [] }
    ensures { IsOpened wide given result }
{
    let (hart, take) = given;
    Lane::new(alloc, hart, wide, take)
}

/// A lane for each end of a queue, in their order.
pub(crate) fn open_all(
    alloc: Global,
    wide: bool,
    takes: Vec<(u8, Take)>,
) -> Result<Vec<Lane>, AllocError>
    requires untaken { All (λ t. taken t.1 ≡ []) takes.items }
    ensures { IfOk result (λ lanes. AreOpened wide takes.items lanes.items) }
{
    let mut lanes = Vec::with_capacity(alloc, takes.len())?;
    for given in takes {
        lanes.push_reserved(open_one(alloc, wide, given));
    }
    Ok(lanes)
}

fn end_one(lane: Lane) -> ((u8, Take), HartEnd)
    ensures { IsLaneEnd lane result.0 result.1 }
{
    let hart = lane.hart();
    let (take, end) = lane.into_end();
    ((hart, take), end)
}

/// Takes the lanes apart. There is room for what they give back.
pub(crate) fn end_all(lanes: Vec<Lane>, takes: &mut Vec<(u8, Take)>, ends: &mut Vec<HartEnd>)
    requires empty { (takes.old.items ≡ []) × (ends.old.items ≡ []) }
    requires room { (vec_len lanes ≤ vec_capacity takes.old) × (vec_len lanes ≤ vec_capacity ends.old) }
    ensures { AreLaneEnds lanes.items takes.new.items ends.new.items }
{
    for lane in lanes {
        let (take, end) = end_one(lane);
        takes.push_reserved(take);
        ends.push_reserved(end);
    }
}
