ghost use Rattle.std.specs.Prelude.{◌≡◌, List};
ghost use Rattle.dt_record.specs.Actions.{Action};
ghost use Rattle.dt_stores.specs.Standing.{StoresStand};
ghost use Rattle.dt_commits.specs.Undrained.{undrained_check};

use dt_rules::{Misfit, Reason, none_left};
use dt_step::Planned;
use dt_stores::{Stores, Which};

/// Whether every own store is drained by the cycle `stamp`, where the plan is that of FENCE.I or
/// SFENCE.VMA. `seq` is the number of the record among those of its hart. Expected is the number of
/// the oldest store that is not drained, and found that of the record.
pub fn undrained(s: &Stores, plan: Planned, stamp: u64, seq: u32) -> Result<(), Misfit>
    ensures { (actions : List Action) → StoresStand s.now actions → result ≡ undrained_check actions plan stamp seq }
{
    match plan {
        Planned::FenceI | Planned::FencesPages { .. } => {
            let oldest = s.oldest(Which::All, stamp);
            none_left(Reason::Undrained, oldest, u64::from(seq))
        }
        _ => Ok(()),
    }
}
