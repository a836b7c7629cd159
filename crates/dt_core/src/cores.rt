ghost use Rattle.std.specs.Prelude.{◌≡◌, ◌<◌, ◌^◌, length, take, slice_set, Some, IsSome, IfOk, OnOk, OnErr};
ghost use Rattle.std.specs.List.{slice_get, list_all};
ghost use Rattle.dt_core.specs.Machine.{CoreState, new_harts, opening_state, queued, feed_next, take_of, HartState, has_crossed, ends_with, is_true, announce_of, seen_notes, next_record, judge_next, judge_of, step_state};
ghost use Rattle.dt_core.specs.Notes.{notes_appended};
ghost use Rattle.dt_core.specs.Own.{IsSafe};

use crate::entries::Entry;
use crate::harts::Hart;
use crate::judgements::Judgement;
use crate::notes::{can_judge, notes_appended};
use crate::steps::CoreStep;
use crate::tells::{Teller, add_entries, is_mine, told};
use crate::truths::{ends_with, is_crossed};
use crate::writes::usable;
use dt_record::{Key, Note, Record};
use std::alloc::{AllocError, Global};
use std::marker::Model;

/// The state of a run.
#[derive(Drop)]
pub struct Core<J: Judgement> {
    file: Vec<Record>,
    fed: usize,
    is_ended: bool,
    harts: Vec<Hart<J>>,
    seen: Vec<usize>,
    history: Vec<Entry>,
}

impl<J: Judgement> Model for Core<J> {
    ghost use Rattle.dt_core.specs.Machine.{CoreState};

    ghost Value = { CoreState J };

    ghost view = { λ c. record {
      file = c.file.items;
      fed = c.fed;
      is_ended = c.is_ended;
      harts = c.harts.items;
      seen = c.seen.items;
      history = c.history.items;
    } };
}

fn new_harts<J: Judgement>(alloc: Global, harts: u8) -> Result<Vec<Hart<J>>, AllocError>
    ensures { IfOk result (λ all. all.items ≡ new_harts J.meaning harts) }
{
    let mut all = Vec::new(alloc);
    for hart in 0..harts {
        all.push(Hart::new(alloc, hart))?;
    }
    Ok(all)
}

/// The record that is fed next.
fn next_event(file: &[Record], fed: usize) -> Option<Record>
    ensures next { result ≡ slice_get file.now fed }
    ensures within { IsSome result → fed < length file.now }
{
    file.get(fed).copied()
}

/// Puts a record at the end of its hart's queue.
fn queue_event<J: Judgement>(harts: &mut [Hart<J>], event: Record) -> Result<(), AllocError>
    ensures queued { OnOk result (harts.new ≡ queued harts.old event (slice_get harts.old event.hart)) }
    ensures unchanged { OnErr result (harts.new ≡ harts.old) }
{
    let hart = usize::from(event.hart);
    if hart < harts.len() {
        harts[hart].feed(event)?;
    }
    Ok(())
}

fn take_first<J: Judgement>(harts: &mut [Hart<J>], hart: u8) -> Result<(), AllocError>
    ensures taken { OnOk result (harts.new ≡ take_of harts.old hart (slice_get harts.old hart)) }
    ensures unchanged { OnErr result (harts.new ≡ harts.old) }
{
    let hart = usize::from(hart);
    if hart < harts.len() {
        harts[hart].take()?;
    }
    Ok(())
}

/// The notes of the first entries.
fn first_notes(alloc: Global, entries: &[Entry], count: usize) -> Result<Vec<Note>, AllocError>
    ensures { IfOk result (λ notes. notes.items ≡ notes_appended (take count entries.now)) }
{
    let end = count.min(entries.len());
    notes_appended(alloc, &entries[..end])
}

impl<J: Judgement> Core<J> {
    pub fn start(
        alloc: Global,
        harts: u8,
        workers: u8,
        file: Vec<Record>,
    ) -> Result<Core<J>, AllocError>
        ensures { IfOk result (λ core. core ≡ opening_state J.meaning harts workers file.items) }
    {
        let harts = new_harts(alloc, harts)?;
        let seen = vec![in alloc; 0; usize::from(workers)]?;
        Ok(Core {
            file,
            fed: 0,
            is_ended: false,
            harts,
            seen,
            history: Vec::new(alloc),
        })
    }

    fn feed(&mut self) -> Result<(), AllocError>
        ensures fed { OnOk result (self.new ≡ feed_next self.old (slice_get self.old.file self.old.fed)) }
        ensures unchanged { OnErr result (self.new ≡ self.old) }
    {
        match next_event(&self.file, self.fed) {
            Some(event) => {
                queue_event(&mut self.harts, event)?;
                self.fed += 1;
            }
            None => self.is_ended = true,
        }
        Ok(())
    }

    fn take(&mut self, hart: u8) -> Result<(), AllocError>
        ensures taken { OnOk result (self.new ≡ record self.old { harts = take_of self.old.harts hart (slice_get self.old.harts hart) }) }
        ensures unchanged { OnErr result (self.new ≡ self.old) }
    {
        take_first(&mut self.harts, hart)
    }

    fn look(&mut self, worker: u8)
        ensures { self.new ≡ record self.old { seen = slice_set self.old.seen worker (length self.old.history) } }
    {
        let worker = usize::from(worker);
        if worker < self.seen.len() {
            self.seen[worker] = self.history.len();
        }
    }

    /// Whether a note is a cut or a failure that is true of the worker's judged records.
    fn is_true(&self, worker: u8, note: &Note) -> bool
        requires { IsSafe self.now }
        ensures { result ≡ is_true self.now worker note.now }
    {
        let workers = self.seen.len() as u8;
        match note {
            Note::Cut { hart, cut } => {
                is_mine(workers, worker, *hart) && self.has_crossed(*hart, *cut)
            }
            Note::Failure { key } => {
                is_mine(workers, worker, key.hart) && self.has_ended_with(*key)
            }
            Note::Wrote(_) | Note::Mark { .. } | Note::End { .. } => false,
        }
    }

    fn has_crossed(&self, hart: u8, cut: u64) -> bool
        ensures { result ≡ has_crossed self.now.file hart cut (slice_get self.now.harts hart) }
    {
        match self.harts.get(usize::from(hart)) {
            Some(state) => is_crossed(&self.file, hart, cut, state.outcomes()),
            None => false,
        }
    }

    fn has_ended_with(&self, key: Key) -> bool
        requires { IsSafe self.now }
        ensures { result ≡ ends_with key (slice_get self.now.harts key.hart) }
    {
        match self.harts.get(usize::from(key.hart)) {
            Some(state) => ends_with(key, state),
            None => false,
        }
    }

    fn are_true(&self, worker: u8, notes: &[Note]) -> bool
        requires { IsSafe self.now }
        ensures { result ≡ list_all (is_true self.now worker) notes.now }
    {
        for note in notes {
            if !self.is_true(worker, note) {
                return false;
            }
        }
        true
    }

    fn announce(&mut self, worker: u8, extra: &[Note]) -> Result<(), AllocError>
        requires { IsSafe self.old }
        ensures announced { OnOk result (self.new ≡ announce_of self.old worker extra.now) }
        ensures unchanged { OnErr result (self.new ≡ self.old) }
    {
        let workers = self.seen.len() as u8;
        if worker < workers && self.are_true(worker, extra) {
            let alloc = *self.history.allocator();
            let by = Teller {
                workers,
                worker,
                is_ended: self.is_ended,
            };
            let mut history = told(alloc, by, &self.harts, &self.history)?;
            add_entries(&mut history, worker, extra)?;
            self.history = history;
        }
        Ok(())
    }

    /// The notes that the worker of a hart has seen.
    fn seen_notes(&self, alloc: Global, hart: u8) -> Result<Vec<Note>, AllocError>
        requires { IsSafe self.now }
        ensures { IfOk result (λ notes. notes.items ≡ seen_notes self.now hart) }
    {
        let worker = usize::from(hart) % self.seen.len();
        first_notes(alloc, &self.history, self.seen[worker])
    }

    fn judge_at(&mut self, hart: usize, notes: &[Note]) -> Result<(), AllocError>
        requires safe { IsSafe self.old }
        requires within { hart < length self.old.harts }
        ensures judged { OnOk result ((s : HartState J) → slice_get self.old.harts hart ≡ Some s
            → self.new ≡ judge_next J.meaning self.old hart s notes.now (next_record s)) }
        ensures unchanged { OnErr result (self.new ≡ self.old) }
    {
        let harts = self.harts.len() as u8;
        if let Some(event) = self.harts[hart].next()
            && can_judge(harts, notes, event.stamp)
        {
            let writes = usable(*self.history.allocator(), harts, notes)?;
            self.harts[hart].judge(&writes, &event)?;
        }
        Ok(())
    }

    fn judge(&mut self, hart: u8) -> Result<(), AllocError>
        requires { IsSafe self.old }
        ensures judged { OnOk result (self.new ≡ judge_of J.meaning self.old hart (slice_get self.old.harts hart)) }
        ensures unchanged { OnErr result (self.new ≡ self.old) }
    {
        if usize::from(hart) < self.harts.len() {
            let notes = self.seen_notes(*self.history.allocator(), hart)?;
            self.judge_at(usize::from(hart), &notes)?;
        }
        Ok(())
    }

    pub fn harts(&self) -> u8
        requires { length self.now.harts < 2 ^ 8 }
        ensures { result ≡ length self.now.harts }
    {
        self.harts.len() as u8
    }

    pub fn judged(&self, hart: u8) -> u32
        requires within { hart < length self.now.harts }
        requires few { (s : HartState J) → slice_get self.now.harts hart ≡ Some s → length s.outcomes < 2 ^ 32 }
        ensures { (s : HartState J) → slice_get self.now.harts hart ≡ Some s → result ≡ length s.outcomes }
    {
        self.harts[usize::from(hart)].outcomes().len() as u32
    }

    pub fn outcomes(&self, hart: u8) -> &[bool]
        requires { hart < length self.now.harts }
        ensures { (s : HartState J) → slice_get self.now.harts hart ≡ Some s → result.now ≡ s.outcomes }
    {
        self.harts[usize::from(hart)].outcomes()
    }

    pub fn step(&mut self, s: &CoreStep) -> Result<(), AllocError>
        requires { IsSafe self.old }
        ensures done { OnOk result (self.new ≡ step_state J.meaning self.old s.now) }
        ensures unchanged { OnErr result (self.new ≡ self.old) }
    {
        match s {
            CoreStep::Feed => self.feed(),
            CoreStep::Take { hart } => self.take(*hart),
            CoreStep::Announce { worker, extra } => self.announce(*worker, extra.as_slice()),
            CoreStep::Look { worker } => {
                self.look(*worker);
                Ok(())
            }
            CoreStep::Judge { hart } => self.judge(*hart),
        }
    }
}
