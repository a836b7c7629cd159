ghost use Rattle.std.specs.Prelude.{◌≡◌, ◌≤◌, ◌<◌, ◌+◌, ◌%◌, length, true};
ghost use Rattle.dt_record.specs.declared.limits.TheConstants.{RAM_END, RAM_START};
ghost use Rattle.dt_walk.specs.Walk.{CanWalk};
ghost use Rattle.dt_translate.specs.Fetches.{LeadsToHalf};
ghost use Rattle.dt_translate.specs.Outcomes.{half_at, outcome_at};

use crate::tables::Tables;
use dt_access::reached;
use dt_versions::Moments;
use dt_walk::{WalkAnswer, WalkArgs, leaf_decides, walk};

/// The outcome of a translation after the first k writes. It is what the walk answers, unless that
/// is an address at which there is nothing, or with `ram_only` one outside RAM: the access faults
/// there.
/// `ram_only` is for fetches, LR, SC and atomics.
#[tactic(auto, unfolding(crate::specs::Outcomes::outcome_at))]
pub fn outcome(moments: &Moments, k: u32, a: WalkArgs, ram_only: bool) -> WalkAnswer
    requires within { k ≤ length moments.now.writes }
    requires args { CanWalk a }
    ensures { result ≡ outcome_at moments.now.image moments.now.writes k a ram_only }
{
    let tables = Tables { moments, moment: k };
    reached(ram_only, walk(&tables, a))
}

/// The outcome for a fetch of a halfword, which lies in RAM as a whole.
pub fn fetch_outcome(moments: &Moments, k: u32, a: WalkArgs) -> WalkAnswer
    requires within { k ≤ length moments.now.writes }
    requires args { CanWalk a }
    requires even { a.va % 2 ≡ 0 }
    ensures value { result ≡ outcome_at moments.now.image moments.now.writes k a true }
    ensures leads { LeadsToHalf result }
{
    leaf_decides();
    outcome(moments, k, a, true)
}

/// The halfword after the first k writes.
#[tactic(auto, unfolding(crate::specs::Outcomes::half_at))]
pub fn half(moments: &Moments, k: u32, addr: u64) -> u16
    requires within { k ≤ length moments.now.writes }
    requires in_ram { RAM_START ≤ addr }
    requires before_end { addr + 1 < RAM_END }
    ensures { result ≡ half_at moments.now.image moments.now.writes k addr }
{
    u16::from_le_bytes([moments.byte(k, addr), moments.byte(k, addr + 1)])
}
