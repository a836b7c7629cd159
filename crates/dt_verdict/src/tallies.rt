ghost use Rattle.std.specs.Prelude.{◌≡◌, ◌≤◌, length};

use dt_record::{Key, Letters, Sources};
use std::marker::Model;

/// How many of a hart's records there are, of each kind. Where the check fails, these are the
/// records that come before the failing one in the order of keys.
#[derive(Clone, Copy, Debug, Default, PartialEq, Eq)]
pub struct Counts {
    pub records: u32,
    /// The records that write memory: drains, and atomics that wrote.
    pub writes: u32,
    /// The retired instructions: each is a commit, a load, a store or an atomic.
    pub retired: u32,
    pub traps: u32,
    pub loads: u32,
    pub stores: u32,
    pub atomics: u32,
    pub drains: u32,
}

/// What a report says of one record: the rules that settled its departures, and where the bytes
/// that it read from RAM come from.
#[derive(Clone, Copy, Debug, PartialEq, Eq)]
pub struct Noted {
    pub key: Key,
    pub letters: Letters,
    pub sources: Sources,
}

/// The counts of each hart, hart 0 first, of at most 8 harts. A contract sees them as a list.
#[derive(Debug, Drop)]
pub struct HartCounts {
    counts: Vec<Counts>,
}

impl Model for HartCounts {
    ghost use Rattle.std.specs.Prelude.{List, ◌≤◌, vec_len};
    ghost use Rattle.dt_verdict.specs.declared.tallies.Counts.{Counts};

    ghost Value = { List Counts };

    ghost view = { λ harts. harts.counts.items };

    ghost invariant = { λ harts. vec_len harts.counts ≤ 8 };
}

impl HartCounts {
    /// The counts of at most 8 harts, hart 0 first.
    pub fn of(counts: Vec<Counts>) -> HartCounts
        requires { length counts.items ≤ 8 }
        ensures { result ≡ counts.items }
    {
        HartCounts { counts }
    }

    /// The counts, hart 0 first.
    pub fn items(&self) -> &[Counts]
        ensures items { result.now ≡ self.now }
        ensures within { length self.now ≤ 8 }
    {
        self.counts.as_slice()
    }

    /// Gives the counts back, hart 0 first. It takes no memory.
    pub fn into_vec(self) -> Vec<Counts>
        ensures { result.items ≡ self }
    {
        self.counts
    }
}

/// Records that a report names. A contract sees them as a list.
#[derive(Debug, Drop)]
pub struct NotedRecords {
    records: Vec<Noted>,
}

impl Model for NotedRecords {
    ghost use Rattle.std.specs.Prelude.{List};
    ghost use Rattle.dt_verdict.specs.declared.tallies.Noted.{Noted};

    ghost Value = { List Noted };

    ghost view = { λ noted. noted.records.items };
}

impl NotedRecords {
    /// These records in this order: nothing is sorted and nothing left out.
    pub fn of(records: Vec<Noted>) -> NotedRecords
        ensures { result ≡ records.items }
    {
        NotedRecords { records }
    }

    /// The records in their order.
    pub fn items(&self) -> &[Noted]
        ensures { result.now ≡ self.now }
    {
        self.records.as_slice()
    }

    /// Gives the records back in their order. It takes no memory.
    pub fn into_vec(self) -> Vec<Noted>
        ensures { result.items ≡ self }
    {
        self.records
    }
}

/// What a report counts and names.
#[derive(Debug, Drop)]
pub struct Tallies {
    pub harts: HartCounts,
    /// By key, each counted record that a letter stands on or that reads RAM by a load, LR or AMO.
    pub notes: NotedRecords,
}
