ghost use Rattle.std.specs.Prelude.{◌≡◌, ℕ, ◌≤◌, ◌<◌, ◌%◌, length, All};
ghost use Rattle.dt_record.specs.declared.limits.TheConstants.{RAM_END, RAM_START};
ghost use Rattle.dt_versions.specs.Words.{IsSteady};
ghost use Rattle.dt_walk.specs.Walk.{CanWalk, IsEntryAddress, walk_of};
ghost use Rattle.dt_translate.specs.Outcomes.{entry_at};

use dt_versions::{Moments, steady_words_stay};
use dt_walk::{PteReader, WalkArgs, reads_decide, walk_reads};

/// The page tables as they stand at one moment.
#[derive(Clone, Copy)]
pub struct Tables<'a> {
    pub moments: &'a Moments,
    /// How many first writes have happened.
    pub moment: u32,
    ghost within: { moment ≤ length moments.now.writes },
}

impl PteReader for Tables<'_> {
    ghost use Rattle.dt_translate.specs.Outcomes.{entry_at};

    ghost entry = { λ t addr. entry_at t.moments.now.image t.moments.now.writes t.moment addr };

    fn pte(&self, addr: u64) -> u64 {
        entry(self.moments, self.moment, addr)
    }
}

/// The page-table entry of 64 bits after the first k writes.
fn entry(moments: &Moments, k: u32, addr: u64) -> u64
    requires within { k ≤ length moments.now.writes }
    requires aligned { addr % 8 ≡ 0 }
    requires in_ram { RAM_START ≤ addr }
    requires before_end { addr < RAM_END }
    ensures { result ≡ entry_at moments.now.image moments.now.writes k addr }
{
    moments.word(k, addr)
}

/// The least moment from which on, up to moment k, no entry changes that the walk for the access
/// reads.
pub fn steady_walk(moments: &Moments, k: u32, a: WalkArgs) -> u32
    requires within { k ≤ length moments.now.writes }
    requires args { CanWalk a }
    ensures within { result ≤ k }
    ensures steady { (j : ℕ) → result ≤ j → j ≤ k
        → walk_of (entry_at moments.now.image moments.now.writes j) a ≡ walk_of (entry_at moments.now.image moments.now.writes k) a }
{
    steady_words_stay();
    reads_decide();
    let tables = Tables { moments, moment: k };
    steady_from(moments, k, walk_reads(&tables, a).as_slice())
}

/// The greatest of the moments from which on, up to moment k, these entries stay.
fn steady_from(moments: &Moments, k: u32, addresses: &[u64]) -> u32
    requires within { k ≤ length moments.now.writes }
    requires lie { All IsEntryAddress addresses.now }
    ensures within { result ≤ k }
    ensures steady { All (λ addr. IsSteady moments.now.writes addr result k) addresses.now }
{
    let mut from = 0;
    for addr in addresses {
        from = u32::max(from, moments.steady_from(k, *addr));
    }
    from
}
