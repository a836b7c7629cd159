ghost use Rattle.std.specs.Prelude.{◌≡◌, ◌+◌, ◌<◌, [], ◌∷◌, ◌↔◌, true, false, length, IsTrue, IfSome, IfOk, All, OnOk, OnErr, List, Bool};
ghost use Rattle.dt_record.specs.declared.limits.TheConstants.{RECORD_LIMIT};
ghost use Rattle.dt_record.specs.Actions.{Action, Stored, Drained, Fenced, raised};
ghost use Rattle.dt_record.specs.Keys.{KeyBelow};
ghost use Rattle.dt_stores.specs.Kept.{without_past};
ghost use Rattle.dt_stores.specs.Marks.{IsLive, KeepsMarks, undone, forgotten};
ghost use Rattle.dt_stores.specs.Places.{is_store_place};
ghost use Rattle.dt_stores.specs.Standing.{StoresStand, GainsAction};
ghost use Rattle.dt_stores.specs.Draining.{drain_answer, forward_after, OnTook, OnRefused, UnlessOutOfMemory};
ghost use Rattle.dt_stores.specs.Oldest.{oldest_after};

use crate::answers::{DrainAnswer, Forward, Which};
use crate::copies::{copy_entries, copy_lines};
use crate::drains::{answer_of, are_drained_before, first_waiting, set_drained};
use crate::entries::Entry;
use crate::late::{Late, first_in_cycle, push_late};
use crate::lines::{
    Line, add_place, add_taken, line_of, make_room, places_at, taken_at, waiting_at,
};
use crate::searches::{asked_at, forward_from, oldest_from};
use crate::steps::{Step, Steps, forget_steps, keep_step, no_steps, reserve_step};
use crate::undoing::undo_steps;
use dt_record::{Key, OwnStore};
use std::alloc::{AllocError, Global};
use std::marker::Model;

/// The stores to RAM of one hart, with its fences and drains.
#[derive(Debug, Drop)]
pub struct Stores {
    /// All stores, the oldest first.
    entries: Vec<Entry>,
    /// The stores of each line, by its place in RAM.
    lines: Vec<Line>,
    /// The place of the oldest store that waits, or how many stores there are.
    first: usize,
    /// What `first` was before each drain that took stores.
    late: Vec<Late>,
    /// How many write-before-write fences there were.
    ww: u32,
    /// How many write-before-read fences there were.
    wr: u32,
    steps: Steps,
}

/// A place in the past of a hart's stores, with the numbers of its fences.
#[derive(Clone, Copy, Debug, PartialEq, Eq)]
pub struct Mark {
    at: u64,
    ww: u32,
    wr: u32,
}

impl Model for Stores {
    ghost use Rattle.dt_stores.specs.Kept.{Kept};
    ghost use Rattle.dt_stores.specs.Past.{buffer_of, kept_of};
    ghost use Rattle.dt_stores.specs.Sound.{HasPast};

    ghost Value = { Kept };

    ghost view = { λ s. kept_of (buffer_of s.entries.items s.first s.late.items) s.ww s.wr s.steps };

    ghost invariant = { λ s. HasPast (buffer_of s.entries.items s.first s.late.items) s.ww s.wr s.lines.items s.steps };
}

impl Stores {
    /// No store and no fence.
    pub fn new(alloc: Global) -> Stores
        ensures value { result ≡ without_past [] 0 0 }
        ensures stands { StoresStand result [] }
    {
        Stores {
            entries: Vec::new(alloc),
            lines: Vec::new(alloc),
            first: 0,
            late: Vec::new(alloc),
            ww: 0,
            wr: 0,
            steps: no_steps(alloc),
        }
    }

    /// Adds a store, which waits from now on.
    pub fn commit(&mut self, s: OwnStore) -> Result<(), AllocError>
        requires { IsTrue (is_store_place s) }
        ensures ok { OnOk result (GainsAction self.old self.new (Stored s)) }
        ensures marks { OnOk result (KeepsMarks self.old self.new) }
        ensures fences { (self.new.ww ≡ self.old.ww) × (self.new.wr ≡ self.old.wr) }
        ensures err { OnErr result (self.new ≡ self.old) }
    {
        if self.entries.len() > u32::MAX as usize {
            return Err(AllocError);
        }
        let place = self.entries.len() as u32;
        let line = line_of(s.addr);
        make_room(&mut self.lines, line)?;
        reserve_step(&mut self.steps)?;
        self.entries.push(Entry::new(s, self.ww, self.wr))?;
        add_place(self.lines.as_mut_slice(), line, place);
        keep_step(&mut self.steps, Step::Commit);
        Ok(())
    }

    /// A fence: whether it orders writes before writes, and writes before reads.
    pub fn fence(&mut self, ww: bool, wr: bool)
        requires { (self.old.ww < RECORD_LIMIT) × (self.old.wr < RECORD_LIMIT) }
        ensures gains { (rr : Bool) → GainsAction self.old self.new (Fenced ww wr rr) }
        ensures fences { (self.new.ww ≡ raised self.old.ww ww) × (self.new.wr ≡ raised self.old.wr wr) }
        ensures marks { KeepsMarks self.old self.new }
    {
        self.ww = count_fence(self.ww, ww);
        self.wr = count_fence(self.wr, wr);
    }

    /// Whether a drain may have this key, which is above those of all drains before it. It looks at
    /// each store.
    pub fn can_drain(&self, key: Key) -> bool
        ensures { IsTrue result ↔ All (λ h. IfSome h.drained (λ k. KeyBelow k key)) self.now.held }
    {
        are_drained_before(&self.entries, key)
    }

    /// Takes the `count` oldest waiting stores of a line, unless fewer wait or an older store bars
    /// it.
    pub fn drain(&mut self, key: Key, line: u64, count: u16) -> DrainAnswer
        requires { All (λ h. IfSome h.drained (λ k. KeyBelow k key)) self.old.held }
        ensures answer { UnlessOutOfMemory result ((actions : List Action) → StoresStand self.old actions
            → result ≡ drain_answer actions line count) }
        ensures took { OnTook result (GainsAction self.old self.new (Drained key line count)) }
        ensures marks { OnTook result (KeepsMarks self.old self.new) }
        ensures fences { (self.new.ww ≡ self.old.ww) × (self.new.wr ≡ self.old.wr) }
        ensures refused { OnRefused result (self.new ≡ self.old) }
    {
        let waiting = waiting_at(&self.lines, line);
        let answer = answer_of(&self.entries, self.first, waiting, line, count);
        if count == 0 || !answer.is_taking() {
            return answer;
        }
        if self.late.reserve(1).is_err() {
            return DrainAnswer::OutOfMemory;
        }
        if reserve_step(&mut self.steps).is_err() {
            return DrainAnswer::OutOfMemory;
        }
        set_drained(
            self.entries.as_mut_slice(),
            &waiting[..usize::from(count)],
            Some(key),
        );
        let taken = taken_at(&self.lines, line);
        add_taken(self.lines.as_mut_slice(), line, count);
        push_late(&mut self.late, key.stamp, self.first);
        self.first = first_waiting(&self.entries, self.first);
        keep_step(&mut self.steps, Step::Drain { line, taken, count });
        answer
    }

    /// The answer that `drain` would give where memory does not run out.
    pub fn would_drain(&self, line: u64, count: u16) -> DrainAnswer
        ensures { (actions : List Action) → StoresStand self.now actions → result ≡ drain_answer actions line count }
    {
        let waiting = waiting_at(&self.lines, line);
        answer_of(&self.entries, self.first, waiting, line, count)
    }

    /// What a load in the cycle `at` has for a byte from a store of its own hart. That is the
    /// youngest on the byte that still waits after the cycle: its drain, if any, is of a later one.
    pub fn forward(&self, addr: u64, at: u64) -> Option<Forward>
        ensures { (actions : List Action) → StoresStand self.now actions → result ≡ forward_after actions addr at }
    {
        forward_from(
            &self.entries,
            places_at(&self.lines, line_of(addr)),
            addr,
            at,
        )
    }

    /// The seq of the oldest of these stores that still waits after the cycle `at`.
    pub fn oldest(&self, which: Which, at: u64) -> Option<u32>
        ensures { (actions : List Action) → StoresStand self.now actions → result ≡ oldest_after actions which at }
    {
        match which {
            Which::Line(line) => oldest_from(&self.entries, places_at(&self.lines, line), at),
            _ => {
                let place = first_in_cycle(&self.late, self.first, at);
                asked_at(&self.entries, place, self.ww, self.wr, which)
            }
        }
    }

    /// The place at which the stores stand, to which they can be undone from now on.
    pub fn mark(&mut self) -> Mark
        ensures here { result ≡ record { at = self.old.from + length self.old.past; ww = self.old.ww; wr = self.old.wr } }
        ensures kept { self.new ≡ record self.old { keeps = true } }
        ensures live { IsLive self.new result }
    {
        self.steps.keeps = true;
        Mark {
            at: self.steps.from + self.steps.kept.len() as u64,
            ww: self.ww,
            wr: self.wr,
        }
    }

    /// Makes the stores what they were at a mark. That mark, and each earlier one, can be undone to
    /// again.
    pub fn undo_to(&mut self, m: Mark)
        requires { IsLive self.old m }
        ensures { self.new ≡ undone self.old m }
    {
        let count = (m.at - self.steps.from) as usize;
        self.first = undo_steps(
            &mut self.entries,
            self.lines.as_mut_slice(),
            &mut self.late,
            self.first,
            &mut self.steps.kept,
            count,
        );
        self.ww = m.ww;
        self.wr = m.wr;
    }

    /// Forgets what came before a mark, so that no earlier one can be undone to.
    pub fn forget(&mut self, m: Mark)
        requires { IsLive self.old m }
        ensures { self.new ≡ forgotten self.old m }
    {
        let count = (m.at - self.steps.from) as usize;
        forget_steps(&mut self.steps.kept, count);
        self.steps.from = m.at;
    }

    /// The same stores and fences, without a past.
    pub fn copy(&self, alloc: Global) -> Result<Stores, AllocError>
        ensures { IfOk result (λ s. s ≡ record self.now { keeps = false; from = 0; past = [] }) }
    {
        Ok(Stores {
            entries: copy_entries(alloc, &self.entries)?,
            lines: copy_lines(alloc, &self.lines)?,
            first: self.first,
            late: Vec::from_slice(alloc, &self.late)?,
            ww: self.ww,
            wr: self.wr,
            steps: no_steps(alloc),
        })
    }
}

fn count_fence(fences: u32, orders: bool) -> u32
    requires { fences < RECORD_LIMIT }
    ensures { result ≡ raised fences orders }
{
    if orders { fences + 1 } else { fences }
}
