ghost use Rattle.std.specs.Prelude.{◌≡◌, ◌<◌, ◌≤◌, ◌||◌, [], All, IsTrue, IfOk, OnOk, true, false};
ghost use Rattle.dt_record.specs.Marks.{least_mark};
ghost use Rattle.dt_queue.specs.Queue.{taken};
ghost use Rattle.dt_shared.specs.Passes.{new_pass};
ghost use Rattle.dt_shared.specs.Records.{identity};
ghost use Rattle.dt_lane.specs.Lanes.{is_done};
ghost use Rattle.dt_worker.specs.Ends.{IsLaterPass, IsWorkerEnd};
ghost use Rattle.dt_worker.specs.Steps.{EachGoes, Goes, HasSettled, SameLane};
ghost use Rattle.dt_worker.specs.Workers.{AreOfDifferentHarts, IsNewWorker};

use crate::ending::{end_all, open_all};
use crate::ends::WorkerEnd;
use crate::lanes::{are_done, judge_all, take_all};
use crate::looking::look_up;
use crate::telling::announce;
use crossbeam_utils::Backoff;
use dt_core::below_mark_may_be_judged;
use dt_intake::nothing_is_told;
use dt_lane::{HartEnd, Lane};
use dt_queue::Take;
use dt_record::{Image, Note, judged_is_passed, passed_goes_on};
use dt_settled::{Settled, fronts_tell_all_writes, seeing_starts};
use dt_shared::{Pass, Replica, SharedRecord};
use dt_source::Gate;
use std::alloc::{AllocError, Global};
use std::marker::Model;
use std::sync::Wait;

/// Some of the harts of a file, in the hands of one thread.
#[derive(Drop)]
pub struct Worker {
    number: u8,
    harts: u8,
    wide: bool,
    lanes: Vec<Lane>,
    pass: Pass,
    replica: Replica,
    settled: Settled,
    news: Vec<Note>,
    refused: bool,
    takes: Vec<(u8, Take)>,
    ends: Vec<HartEnd>,
    ghost empty: { (takes.items ≡ []) × (ends.items ≡ []) },
}

impl Model for Worker {
    ghost use Rattle.std.specs.Prelude.{vec_capacity};
    ghost use Rattle.dt_worker.specs.Steps.{IsWorkerState};
    ghost use Rattle.dt_worker.specs.Workers.{WorkerView};

    ghost Value = { WorkerView };

    ghost view = { λ w. record {
      harts = w.harts;
      wide = w.wide;
      image = w.settled.image;
      pass = w.pass;
      lanes = w.lanes.items;
      notes = w.replica.notes;
      settled = w.settled;
    } };

    ghost invariant = { λ w. IsWorkerState (record {
      harts = w.harts;
      wide = w.wide;
      image = w.settled.image;
      pass = w.pass;
      lanes = w.lanes.items;
      notes = w.replica.notes;
      settled = w.settled;
    }) w.replica w.refused (vec_capacity w.takes) (vec_capacity w.ends) };
}

impl Worker {
    /// A worker of a file with so many harts, for those whose ends of queues it is given. An `Err` is
    /// want of memory. The gate is told its number. All memory that its end needs is taken here.
    pub fn new(
        alloc: Global,
        number: u8,
        harts: u8,
        image: Image,
        takes: Vec<(u8, Take)>,
        pass: Pass,
        wide: bool,
    ) -> Result<Worker, AllocError>
        requires some_hart { 1 ≤ harts }
        requires few_harts { harts ≤ 8 }
        requires within { All (λ t. t.0 < harts) takes.items }
        requires different { AreOfDifferentHarts takes.items }
        requires untaken { All (λ t. taken t.1 ≡ []) takes.items }
        requires new_pass { pass ≡ new_pass pass.of pass.number }
        ensures { IfOk result (λ w. IsNewWorker harts wide image pass takes.items w) }
    {
        nothing_is_told();
        seeing_starts();
        let count = takes.len();
        Ok(Worker {
            number,
            harts,
            wide,
            lanes: open_all(alloc, wide, takes)?,
            pass,
            replica: Replica::new(alloc, harts),
            settled: Settled::new(alloc, image),
            news: Vec::new(alloc),
            refused: false,
            takes: Vec::with_capacity(alloc, count)?,
            ends: Vec::with_capacity(alloc, count)?,
        })
    }

    /// Takes what its queues hold, tells what it took, and judges what no hart can precede any more,
    /// until all of its harts are judged or some pass has stopped. It waits.
    ///
    /// A record that no file has at its place is kept and ends the telling and judging of its hart; such
    /// a worker ends at a stop alone.
    pub fn run<R: Wait, G: Gate>(self, rt: &R, shared: &SharedRecord, gate: &G) -> WorkerEnd
        requires of_this { self.pass.of ≡ identity shared.now }
        ensures { IsWorkerEnd self result }
    {
        let mut worker = self;
        let backoff = Backoff::new();
        for _ in rt.forever() {
            if worker.is_done() {
                return worker.into_end(false);
            }
            let Ok(moved) = worker.turn(rt, shared, gate) else {
                worker.stop(shared);
                return worker.into_end(false);
            };
            if worker.sees_stop(shared) {
                return worker.into_end(true);
            }
            if !moved {
                backoff.snooze();
            }
        }
        unreachable!()
    }

    /// Takes what has come, tells it, looks at what the others have told, and judges what can be
    /// judged. It answers whether something was taken, told or judged.
    fn turn<R: Wait, G: Gate>(
        &mut self,
        rt: &R,
        shared: &SharedRecord,
        gate: &G,
    ) -> Result<bool, AllocError>
        requires of_this { self.old.pass.of ≡ identity shared.now }
        ensures goes { Goes self.old self.new }
    {
        let came = self.take_all(gate)?;
        let told = self.announce(rt, shared)?;
        let least = self.look_up(rt, shared)?;
        let judged = self.judge_all(least, gate)?;
        Ok(came || told || judged)
    }

    fn take_all<G: Gate>(&mut self, gate: &G) -> Result<bool, AllocError>
        ensures same { self.new ≡ record self.old { lanes = self.new.lanes } }
        ensures lanes { EachGoes SameLane self.old.lanes self.new.lanes }
    {
        take_all(&mut self.lanes, self.number, gate)
    }

    fn announce<R: Wait>(&mut self, rt: &R, shared: &SharedRecord) -> Result<bool, AllocError>
        requires of_this { self.old.pass.of ≡ identity shared.now }
        ensures same { self.new ≡ record self.old { pass = self.new.pass; lanes = self.new.lanes } }
        ensures pass { IsLaterPass self.old.pass self.new.pass }
        ensures lanes { EachGoes SameLane self.old.lanes self.new.lanes }
    {
        announce(rt, shared, &mut self.pass, &mut self.lanes, &mut self.news)
    }

    /// It answers the least mark of what was seen.
    fn look_up<R: Wait>(&mut self, rt: &R, shared: &SharedRecord) -> Result<Option<u64>, AllocError>
        requires of_this { self.old.pass.of ≡ identity shared.now }
        ensures same { self.new ≡ record self.old { pass = self.new.pass; notes = self.new.notes; settled = self.new.settled } }
        ensures pass { IsLaterPass self.old.pass self.new.pass }
        ensures least { IfOk result (λ least. least ≡ least_mark self.new.harts self.new.notes) }
        ensures settled { OnOk result (HasSettled self.new) }
    {
        passed_goes_on();
        fronts_tell_all_writes();
        look_up(
            rt,
            shared,
            &mut self.pass,
            &mut self.replica,
            &mut self.settled,
        )
    }

    fn judge_all<G: Gate>(&mut self, least: Option<u64>, gate: &G) -> Result<bool, AllocError>
        requires least { least ≡ least_mark self.old.harts self.old.notes }
        requires settled { HasSettled self.old }
        ensures same { self.new ≡ record self.old { lanes = self.new.lanes } }
        ensures lanes { EachGoes SameLane self.old.lanes self.new.lanes }
    {
        below_mark_may_be_judged();
        judged_is_passed();
        judge_all(
            &mut self.lanes,
            self.settled.moments(),
            least,
            self.number,
            gate,
        )
    }

    /// Memory was refused: its pass stops.
    fn stop(&mut self, shared: &SharedRecord)
        requires of_this { self.old.pass.of ≡ identity shared.now }
        ensures stopped { self.new ≡ record self.old { pass = record self.old.pass { stopped = true } } }
        ensures goes { Goes self.old self.new }
    {
        shared.stop(&mut self.pass);
        self.refused = true;
    }

    /// Whether some pass has stopped.
    fn sees_stop(&mut self, shared: &SharedRecord) -> bool
        requires of_this { self.old.pass.of ≡ identity shared.now }
        ensures saw { self.new ≡ record self.old { pass = record self.old.pass { saw_stop = self.old.pass.saw_stop || result } } }
        ensures goes { Goes self.old self.new }
    {
        shared.stopped(&mut self.pass)
    }

    /// Whether each of its harts is done.
    fn is_done(&self) -> bool
        ensures { result ≡ true → All (λ l. IsTrue (is_done l)) self.now.lanes }
    {
        are_done(self.lanes.as_slice())
    }

    /// Takes the worker apart. It takes no memory.
    fn into_end(self, stopped: bool) -> WorkerEnd
        requires finished { self.pass.stopped ≡ false → stopped ≡ false → All (λ l. IsTrue (is_done l)) self.lanes }
        requires saw_stop { stopped ≡ true → self.pass.saw_stop ≡ true }
        ensures { IsWorkerEnd self result }
    {
        passed_goes_on();
        fronts_tell_all_writes();
        let Worker {
            lanes,
            pass,
            refused,
            mut takes,
            mut ends,
            ..
        } = self;
        end_all(lanes, &mut takes, &mut ends);
        WorkerEnd {
            pass,
            takes,
            harts: ends,
            refused,
            stopped,
        }
    }
}
