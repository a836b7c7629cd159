ghost use Rattle.std.specs.Prelude.{◌≡◌, ℕ, ◌+◌, ◌<◌, ◌≤◌, Bool, Option, None, is_some, List, [], OnOk, OnErr, IfNone, IfSome};
ghost use Rattle.dt_record.specs.declared.limits.TheConstants.{RECORD_LIMIT};
ghost use Rattle.dt_record.specs.declared.records.Record.{Record as RecordOf};
ghost use Rattle.dt_record.specs.declared.writes.Write.{Write};
ghost use Rattle.dt_record.specs.Lawful.{IsLawful};
ghost use Rattle.dt_record.specs.Lent.{record_of};
ghost use Rattle.dt_runs.specs.RunView.{outcome_in};
ghost use Rattle.dt_runs.specs.Runs.{Runs, RunsBehind, RunsOn, StandsBehind};

use crate::steps::step;
use dt_judge::{Hart, earlier_moments_decide};
use dt_record::{Record, RecordAt};
use dt_verdict::{Failure, Noted, Outcome};
use dt_versions::Moments;
use std::alloc::{AllocError, Global};
use std::marker::Model;

/// One hart while its records are judged, up to the first that is not allowed.
#[derive(Debug, Drop)]
pub struct HartRun {
    hart: Hart,
    failure: Option<Failure>,
    notes: Vec<Noted>,
}

impl Model for HartRun {
    ghost use Rattle.dt_runs.specs.RunView.{RunView};

    ghost Value = { RunView };

    ghost view = { λ r. record { hart = r.hart; failure = r.failure; notes = r.notes.items } };
}

impl HartRun {
    /// The hart with this number after a reset, in a file that does or does not let harts use Sv48,
    /// with no record judged.
    pub fn new(alloc: Global, number: u8, wide: bool) -> HartRun
        ensures opens { (image : List ℕ) (writes : List Write) → Runs result image writes wide [] }
        ensures number { result.hart.arch.hart ≡ number }
        ensures first { (result.hart.seq ≡ 0) × (result.hart.stamp ≡ 0) }
        ensures nothing_yet { (result.failure ≡ None) × (result.notes ≡ []) }
    {
        HartRun {
            hart: Hart::new(alloc, number, wide),
            failure: None,
            notes: Vec::new(alloc),
        }
    }

    /// The run of a hart whose records so far were judged elsewhere, and are allowed. Of those nothing
    /// is noted.
    pub fn behind(alloc: Global, hart: Hart) -> HartRun
        ensures opens { (earlier : List RecordOf) (image : List ℕ) (writes : List Write) (wide : Bool)
            → StandsBehind hart image writes wide earlier → RunsBehind earlier result image writes wide [] }
        ensures same { result.hart ≡ hart }
        ensures nothing_yet { (result.failure ≡ None) × (result.notes ≡ []) }
    {
        HartRun {
            hart,
            failure: None,
            notes: Vec::new(alloc),
        }
    }

    /// The hart's number.
    pub fn number(&self) -> u8
        ensures { result ≡ self.now.hart.arch.hart }
    {
        self.hart.number()
    }

    /// How many of the hart's records are allowed, which is the number of the next one, or of the one
    /// that is not.
    pub fn seq(&self) -> u32
        ensures { result ≡ self.now.hart.seq }
    {
        self.hart.seq()
    }

    /// The stamp of the last allowed record, and 0 before the first.
    pub fn stamp(&self) -> u64
        ensures { result ≡ self.now.hart.stamp }
    {
        self.hart.stamp()
    }

    /// Whether a record is not allowed.
    pub fn has_failed(&self) -> bool
        ensures { result ≡ is_some self.now.failure }
    {
        self.failure.is_some()
    }

    /// Judges the hart's next record. The moments hold at least the writes of its cycle and of
    /// earlier ones; later ones may come before the next call.
    pub fn judge(&mut self, m: &Moments, event: &Record) -> Result<(), AllocError>
        requires lawful { IsLawful event.now }
        requires its { event.now.hart ≡ self.old.hart.arch.hart }
        requires in_time { self.old.hart.stamp ≤ event.now.stamp }
        requires room { self.old.hart.seq < RECORD_LIMIT }
        requires goes_on { self.old.failure ≡ None }
        ensures runs { OnOk result (RunsOn self.old self.new m.now event.now) }
        ensures counted { OnOk result (IfNone self.new.failure (self.new.hart.seq ≡ self.old.hart.seq + 1)) }
        ensures stamp { OnOk result (IfNone self.new.failure (self.new.hart.stamp ≡ event.now.stamp)) }
        ensures stays { OnOk result (IfSome self.new.failure (λ f. self.new.hart ≡ self.old.hart)) }
        ensures number { self.new.hart.arch.hart ≡ self.old.hart.arch.hart }
        ensures unchanged { OnErr result (self.new ≡ self.old) }
    {
        self.judge_at(m, &event.lent())
    }

    /// The same of a record whose long fields are lent.
    pub fn judge_at(&mut self, m: &Moments, event: &RecordAt<'_>) -> Result<(), AllocError>
        requires lawful { IsLawful (record_of event.now) }
        requires its { event.now.hart ≡ self.old.hart.arch.hart }
        requires in_time { self.old.hart.stamp ≤ event.now.stamp }
        requires room { self.old.hart.seq < RECORD_LIMIT }
        requires goes_on { self.old.failure ≡ None }
        ensures runs { OnOk result (RunsOn self.old self.new m.now (record_of event.now)) }
        ensures counted { OnOk result (IfNone self.new.failure (self.new.hart.seq ≡ self.old.hart.seq + 1)) }
        ensures stamp { OnOk result (IfNone self.new.failure (self.new.hart.stamp ≡ event.now.stamp)) }
        ensures stays { OnOk result (IfSome self.new.failure (λ f. self.new.hart ≡ self.old.hart)) }
        ensures number { self.new.hart.arch.hart ≡ self.old.hart.arch.hart }
        ensures unchanged { OnErr result (self.new ≡ self.old) }
    {
        earlier_moments_decide();
        self.failure = step(&mut self.hart, m, event, &mut self.notes)?;
        Ok(())
    }

    /// How far the hart came.
    pub fn outcome(&self) -> Outcome
        ensures { result ≡ outcome_in self.now }
    {
        Outcome {
            hart: self.hart.number(),
            failure: self.failure,
        }
    }

    /// What a report says of the allowed records, in their order.
    pub fn into_notes(self) -> Vec<Noted>
        ensures { result.items ≡ self.notes }
    {
        self.notes
    }
}
