ghost use Rattle.std.specs.Prelude.{◌≡◌, ℕ, ◌+◌, ◌<◌, ◌≤◌, Bool, List, IsTrue, OnOk, OnErr};
ghost use Rattle.dt_record.specs.declared.writes.Write.{Write};
ghost use Rattle.dt_record.specs.declared.limits.TheConstants.{RECORD_LIMIT};
ghost use Rattle.dt_record.specs.Lawful.{IsLawful};
ghost use Rattle.dt_record.specs.Lent.{record_of};
ghost use Rattle.dt_reference.specs.HartActions.{action_of};
ghost use Rattle.dt_reference.specs.Run.{CanFollow, after_record};
ghost use Rattle.dt_step.specs.State.{IsArch, IsReachable};
ghost use Rattle.dt_hart.specs.Marks.{KeepsMarks};
ghost use Rattle.dt_hart.specs.Settings.{at_first};
ghost use Rattle.dt_hart.specs.Standing.{GoesOnWith, HartStands};
ghost use Rattle.dt_hart.specs.Taking.{AreFoundOf, is_placed};

use crate::accesses::Accesses;
use crate::atomics::reserved_by;
use crate::effects::take_effects;
use crate::found::Findings;
use dt_judged::judged_goes_on;
use dt_local::Local;
use dt_record::{Key, Record, RecordAt, Sources, key_of};
use dt_reference::{actions_go_on, advance, start, state_goes_on};
use dt_sources::{knowing_goes_on, least_choice_goes_on, least_choice_is_least, notes_are_added};
use dt_step::Arch;
use dt_stores::Stores;
use dt_windows::Windows;
use std::alloc::{AllocError, Global};
use std::marker::Model;

/// One hart while its records are judged.
#[derive(Debug, Drop)]
pub struct Hart {
    pub(crate) arch: Arch,
    pub(crate) seq: u32,
    /// The stamp of the last record, 0 before the first.
    pub(crate) stamp: u64,
    pub(crate) accesses: Accesses,
    /// The line of the reservation, and the key of the LR that made it.
    pub(crate) reserved: Option<(u64, Key)>,
    pub(crate) windows: Windows,
}

impl Model for Hart {
    ghost use Rattle.dt_step.specs.State.{IsArch, IsReachable};
    ghost use Rattle.dt_hart.specs.Counting.{IsCounted};
    ghost use Rattle.dt_hart.specs.HartView.{HartView};

    ghost Value = { HartView };

    ghost view = { λ h. record {
      arch = h.arch;
      seq = h.seq;
      stamp = h.stamp;
      stores = h.accesses.stores;
      keys = h.accesses.local.keys;
      floor = h.accesses.floor;
      last_read = h.accesses.last_read;
      reserved = h.reserved;
      windows = h.windows;
      keeps = h.accesses.local.keeps;
      from = h.accesses.local.from;
      past = h.accesses.local.past;
    } };

    ghost invariant = { λ h. IsArch h.arch × IsReachable h.arch
        × IsCounted h.accesses.stores (record { stamp = h.stamp; hart = h.arch.hart; seq = h.seq }) };
}

impl Hart {
    /// The hart with this number after a reset, in a file that does or does not let harts use Sv48.
    pub fn new(alloc: Global, number: u8, wide: bool) -> Hart
        ensures stands { (image : List ℕ) (writes : List Write) (moments : ℕ → ℕ)
            → HartStands result (at_first image writes number wide moments) }
        ensures number { result.arch.hart ≡ number }
        ensures first { (result.seq ≡ 0) × (result.stamp ≡ 0) }
    {
        Hart {
            arch: start(number, wide),
            seq: 0,
            stamp: 0,
            accesses: Accesses {
                stores: Stores::new(alloc),
                local: Local::new(alloc),
                floor: 0,
                last_read: 0,
            },
            reserved: None,
            windows: Windows::new(alloc),
        }
    }

    /// How many records of the hart were taken, which is the number of the next one.
    pub fn seq(&self) -> u32
        ensures { result ≡ self.now.seq }
    {
        self.seq
    }

    /// The stamp of the last record, and 0 before the first.
    pub fn stamp(&self) -> u64
        ensures { result ≡ self.now.stamp }
    {
        self.stamp
    }

    /// The hart's number.
    pub fn number(&self) -> u8
        ensures { result ≡ self.now.arch.hart }
    {
        self.arch.hart
    }

    /// The reference's state before the next record.
    pub fn arch(&self) -> &Arch
        ensures value { result.now ≡ self.now.arch }
        ensures arch { IsArch result.now }
        ensures reachable { IsReachable result.now }
    {
        &self.arch
    }

    /// The hart's store buffer.
    pub fn stores(&self) -> &Stores
        ensures { result.now ≡ self.now.stores }
    {
        &self.accesses.stores
    }

    /// The newest key that the hart knows for each byte.
    pub fn local(&self) -> &Local
        ensures { result.now.keys ≡ self.now.keys }
    {
        &self.accesses.local
    }

    /// The cycle that the hart's next load may not be below.
    pub fn floor(&self) -> u64
        ensures { result ≡ self.now.floor }
    {
        self.accesses.floor
    }

    /// The line of the hart's reservation, and the key of the LR that made it.
    pub fn reserved(&self) -> Option<(u64, Key)>
        ensures { result ≡ self.now.reserved }
    {
        self.reserved
    }

    /// The hart's last fences of pages and of instructions.
    pub fn windows(&self) -> &Windows
        ensures { result.now ≡ self.now.windows }
    {
        &self.windows
    }

    /// Takes the hart's next record, which is allowed. The sources are where the bytes of a load from
    /// RAM, an LR or an AMO come from, and do not count for other records.
    pub fn take(&mut self, event: &Record, sources: Sources) -> Result<(), AllocError>
        requires lawful { IsLawful event.now }
        requires its { event.now.hart ≡ self.old.arch.hart }
        requires in_time { self.old.stamp ≤ event.now.stamp }
        requires room { self.old.seq < RECORD_LIMIT }
        requires follows { CanFollow self.old.arch event.now.body }
        requires placed { IsTrue (is_placed (action_of self.old.seq event.now)) }
        ensures goes_on { OnOk result (GoesOnWith self.old self.new event.now sources) }
        ensures arch { OnOk result (self.new.arch ≡ after_record self.old.arch event.now) }
        ensures number { self.new.arch.hart ≡ self.old.arch.hart }
        ensures counted { OnOk result (self.new.seq ≡ self.old.seq + 1) }
        ensures stamp { OnOk result (self.new.stamp ≡ event.now.stamp) }
        ensures marks { OnOk result (KeepsMarks self.old self.new) }
        ensures unchanged { OnErr result (self.new ≡ self.old) }
    {
        let key = key_of(event, self.seq);
        let found = Findings {
            key,
            plan: None,
            sources,
        };
        self.take_at(&event.lent(), found)
    }

    /// The same of a record whose long fields are lent, by what was found when it was judged.
    pub fn take_at(&mut self, event: &RecordAt<'_>, found: Findings) -> Result<(), AllocError>
        requires lawful { IsLawful (record_of event.now) }
        requires its { event.now.hart ≡ self.old.arch.hart }
        requires in_time { self.old.stamp ≤ event.now.stamp }
        requires room { self.old.seq < RECORD_LIMIT }
        requires follows { CanFollow self.old.arch (record_of event.now).body }
        requires placed { IsTrue (is_placed (action_of self.old.seq (record_of event.now))) }
        requires found { AreFoundOf self.old.arch self.old.seq (record_of event.now) found }
        ensures goes_on { OnOk result (GoesOnWith self.old self.new (record_of event.now) found.sources) }
        ensures arch { OnOk result (self.new.arch ≡ after_record self.old.arch (record_of event.now)) }
        ensures number { self.new.arch.hart ≡ self.old.arch.hart }
        ensures counted { OnOk result (self.new.seq ≡ self.old.seq + 1) }
        ensures stamp { OnOk result (self.new.stamp ≡ event.now.stamp) }
        ensures marks { OnOk result (KeepsMarks self.old self.new) }
        ensures unchanged { OnErr result (self.new ≡ self.old) }
    {
        self.take_record(&event.record(), found.sources)
    }

    fn take_record(&mut self, event: &Record, sources: Sources) -> Result<(), AllocError>
        requires lawful { IsLawful event.now }
        requires its { event.now.hart ≡ self.old.arch.hart }
        requires in_time { self.old.stamp ≤ event.now.stamp }
        requires room { self.old.seq < RECORD_LIMIT }
        requires follows { CanFollow self.old.arch event.now.body }
        requires placed { IsTrue (is_placed (action_of self.old.seq event.now)) }
        ensures goes_on { OnOk result (GoesOnWith self.old self.new event.now sources) }
        ensures arch { OnOk result (self.new.arch ≡ after_record self.old.arch event.now) }
        ensures number { self.new.arch.hart ≡ self.old.arch.hart }
        ensures counted { OnOk result (self.new.seq ≡ self.old.seq + 1) }
        ensures stamp { OnOk result (self.new.stamp ≡ event.now.stamp) }
        ensures marks { OnOk result (KeepsMarks self.old self.new) }
        ensures unchanged { OnErr result (self.new ≡ self.old) }
    {
        state_goes_on();
        actions_go_on();
        knowing_goes_on();
        notes_are_added();
        least_choice_goes_on();
        least_choice_is_least();
        judged_goes_on();
        take_effects(
            &mut self.accesses,
            &mut self.windows,
            &self.arch,
            self.seq,
            event,
            sources,
        )?;
        let key = Key {
            stamp: event.stamp,
            hart: event.hart,
            seq: self.seq,
        };
        self.reserved = reserved_by(key, event, self.reserved);
        advance(&mut self.arch, event);
        self.seq += 1;
        self.stamp = event.stamp;
        Ok(())
    }
}
