ghost use Rattle.std.specs.Prelude.{◌≡◌, ◌++◌, ℕ, Bool, List, [], All, IsTrue, drop, OnOk, OnErr};
ghost use mathlib.Core.List.{IsPrefix};
ghost use Rattle.dt_core.specs.Marks.{is_below};
ghost use Rattle.dt_record.specs.declared.writes.Note.{Note};
ghost use Rattle.dt_record.specs.declared.writes.Write.{Write};
ghost use Rattle.dt_queue.specs.Queue.{taken, take_queue};
ghost use Rattle.dt_intake.specs.Intakes.{new_intake, news_of, has_news, after_telling};
ghost use Rattle.dt_intake.specs.Told.{IsTold};
ghost use Rattle.dt_runs.specs.RunView.{outcome_in};
ghost use Rattle.dt_settled.specs.Settling.{Continues};
ghost use Rattle.dt_lane.specs.Lanes.{IsJudgedBy, IsLane, is_done, is_judged, judged_len, judged_of};

use crate::ends::HartEnd;
use dt_intake::{Intake, room_keeps_told, taking_keeps_told, usable_front_grows};
use dt_queue::{Pop, Take};
use dt_record::{Note, RECORD_LIMIT};
use dt_runs::HartRun;
use dt_settled::early_writes_have_settled;
use dt_source::{Gate, GateEvent};
use dt_versions::Moments;
use std::alloc::{AllocError, Global};
use std::marker::Model;

/// How many records are taken of a hart before the next one has its turn.
const TURN: usize = 256;

/// One hart in the hands of its worker.
#[derive(Drop)]
pub struct Lane {
    queue: Take,
    intake: Intake,
    run: HartRun,
    /// How many records were taken. Only the gate is told.
    count: u64,
}

impl Model for Lane {
    ghost use Rattle.dt_queue.specs.Queue.{taken, take_queue};
    ghost use Rattle.dt_lane.specs.Lanes.{IsLane, LaneView};

    ghost Value = { LaneView };

    ghost view = { λ s. record { queue = take_queue s.queue; popped = taken s.queue; intake = s.intake; run = s.run } };

    ghost invariant = { λ s. IsLane (record { queue = take_queue s.queue; popped = taken s.queue; intake = s.intake; run = s.run }) };
}

impl Lane {
    /// A hart of which nothing is taken yet, in a file that does or does not let harts use Sv48.
    pub fn new(alloc: Global, hart: u8, wide: bool, take: Take) -> Lane
        requires fresh { taken take ≡ [] }
        ensures queue { result.queue ≡ take_queue take }
        ensures nothing { (result.popped ≡ []) × (result.intake ≡ new_intake hart) }
        ensures unjudged { judged_of result ≡ [] }
        ensures judged { (image : List ℕ) (all : List Write) → IsJudgedBy result image wide all }
    {
        Lane {
            queue: take,
            intake: Intake::new(alloc, hart),
            run: HartRun::new(alloc, hart, wide),
            count: 0,
        }
    }

    /// The hart's number.
    pub fn hart(&self) -> u8
        ensures { result ≡ self.now.intake.hart }
    {
        self.intake.hart()
    }

    /// Takes what the queue holds of the hart, up to 256 records, and nothing behind the end of its feed.
    /// It answers whether something came. An `Err` leaves what was taken before.
    pub fn take_in<G: Gate>(&mut self, worker: u8, gate: &G) -> Result<bool, AllocError>
        ensures queue { self.new.queue ≡ self.old.queue }
        ensures hart { self.new.intake.hart ≡ self.old.intake.hart }
        ensures run { self.new.run ≡ self.old.run }
        ensures judged { judged_of self.new ≡ judged_of self.old }
        ensures told { (notes : List Note) → IsTold self.old.intake notes → IsTold self.new.intake notes }
    {
        let mut came = false;
        for _ in 0..TURN {
            if !self.take_next(worker, gate)? {
                return Ok(came);
            }
            came = true;
        }
        Ok(came)
    }

    /// Takes the next record of the queue, or the end of its feed, where one has come.
    fn take_next<G: Gate>(&mut self, worker: u8, gate: &G) -> Result<bool, AllocError>
        ensures queue { self.new.queue ≡ self.old.queue }
        ensures hart { self.new.intake.hart ≡ self.old.intake.hart }
        ensures run { self.new.run ≡ self.old.run }
        ensures judged { judged_of self.new ≡ judged_of self.old }
        ensures told { (notes : List Note) → IsTold self.old.intake notes → IsTold self.new.intake notes }
    {
        room_keeps_told();
        taking_keeps_told();
        usable_front_grows();
        if self.intake.has_ended() {
            return Ok(false);
        }
        self.intake.reserve()?;
        match self.queue.pop() {
            Pop::Empty => Ok(false),
            Pop::Item(event) => {
                self.intake.take(event);
                self.tell_took(worker, gate);
                Ok(true)
            }
        }
    }

    /// Tells the gate of a record that was taken. The end of a feed is none.
    fn tell_took<G: Gate>(&mut self, worker: u8, gate: &G)
        ensures { self.new ≡ self.old }
    {
        if !self.intake.has_ended() {
            let hart = self.intake.hart();
            let n = self.count;
            self.count = n.wrapping_add(1);
            gate.at(GateEvent::Took { worker, hart, n });
        }
    }

    /// Whether there is a usable record that was not told, or an End that was not.
    pub fn has_news(&self) -> bool
        ensures { result ≡ has_news self.now.intake }
    {
        self.intake.has_news()
    }

    /// Puts what there is to tell behind the notes. It counts as told once `note_told` says so.
    pub fn add_news(&self, notes: &mut Vec<Note>) -> Result<(), AllocError>
        ensures appended { OnOk result (notes.new.items ≡ notes.old.items ++ news_of self.now.intake) }
        ensures unchanged { OnErr result (notes.new.items ≡ notes.old.items) }
    {
        self.intake.add_news(notes)
    }

    /// What there is to tell was told.
    pub fn note_told(&mut self)
        ensures { self.new ≡ record self.old { intake = after_telling self.old.intake } }
    {
        self.intake.note_told();
    }

    /// Judges the hart's records, as long as the next usable one is below the least mark and none has
    /// failed. It answers whether one was judged. An `Err` leaves what was judged before.
    pub fn judge_ready<G: Gate>(
        &mut self,
        m: &Moments,
        least: Option<u64>,
        worker: u8,
        gate: &G,
    ) -> Result<bool, AllocError>
        ensures same { self.new ≡ record self.old { run = self.new.run } }
        ensures judged { (wide : Bool) (all : List Write) → Continues m.now.writes least all
            → IsJudgedBy self.old m.now.image wide all → IsJudgedBy self.new m.now.image wide all }
        ensures further { IsPrefix (judged_of self.old) (judged_of self.new) }
        ensures below { All (λ r. IsTrue (is_below least r.stamp)) (drop (judged_len self.old.run) (judged_of self.new)) }
    {
        let mut moved = false;
        for _ in 0..RECORD_LIMIT {
            if !self.judge_next(m, least, worker, gate)? {
                return Ok(moved);
            }
            moved = true;
        }
        Ok(moved)
    }

    /// Judges the hart's next usable record, where it is below the least mark and none has failed.
    fn judge_next<G: Gate>(
        &mut self,
        m: &Moments,
        least: Option<u64>,
        worker: u8,
        gate: &G,
    ) -> Result<bool, AllocError>
        ensures same { self.new ≡ record self.old { run = self.new.run } }
        ensures judged { (wide : Bool) (all : List Write) → Continues m.now.writes least all
            → IsJudgedBy self.old m.now.image wide all → IsJudgedBy self.new m.now.image wide all }
        ensures further { IsPrefix (judged_of self.old) (judged_of self.new) }
        ensures below { All (λ r. IsTrue (is_below least r.stamp)) (drop (judged_len self.old.run) (judged_of self.new)) }
    {
        early_writes_have_settled();
        if self.run.has_failed() {
            return Ok(false);
        }
        let seq = self.run.seq();
        match self.intake.usable().get(seq as usize) {
            Some(event) if is_below(least, event.stamp) => {
                self.run.judge(m, event)?;
                let hart = self.intake.hart();
                let n = u64::from(seq);
                gate.at(GateEvent::Judged { worker, hart, n });
                Ok(true)
            }
            _ => Ok(false),
        }
    }

    /// Whether all usable records are judged, or one is not allowed.
    fn is_judged(&self) -> bool
        ensures { result ≡ is_judged self.now }
    {
        self.run.has_failed() || self.run.seq() as usize == self.intake.usable().len()
    }

    /// Whether the feed has ended, all that was taken is usable and told to its End, and the hart is
    /// judged to its last record or to one that is not allowed.
    pub fn is_done(&self) -> bool
        ensures { result ≡ is_done self.now }
    {
        self.intake.is_over() && !self.intake.has_news() && self.is_judged()
    }

    /// The end of the queue, and what came of the hart.
    pub fn into_end(self) -> (Take, HartEnd)
        ensures take { (take_queue result.0 ≡ self.queue) × (taken result.0 ≡ self.popped) }
        ensures hart { result.1.hart ≡ self.intake.hart }
        ensures taken { result.1.taken.items ≡ self.intake.taken }
        ensures judged { result.1.judged ≡ self.run.hart.seq }
        ensures outcome { result.1.outcome ≡ outcome_in self.run }
        ensures notes { result.1.notes.items ≡ self.run.notes }
        ensures lane { IsLane self }
    {
        let Lane {
            queue,
            intake,
            run,
            ..
        } = self;
        let hart = intake.hart();
        let judged = run.seq();
        let outcome = run.outcome();
        let end = HartEnd {
            hart,
            taken: intake.into_taken(),
            judged,
            outcome,
            notes: run.into_notes(),
        };
        (queue, end)
    }
}

/// Whether a cycle is below the least mark. Each is where there is none.
fn is_below(least: Option<u64>, stamp: u64) -> bool
    ensures { result ≡ is_below least stamp }
{
    match least {
        Some(mark) => stamp < mark,
        None => true,
    }
}
