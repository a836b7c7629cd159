ghost use Rattle.std.specs.Prelude.{◌≡◌, [], ◌∷◌, ◌++◌, List, OnOk, OnErr};
ghost use Rattle.dt_record.specs.declared.records.Record.{Record};
ghost use Rattle.dt_core.specs.Machine.{new_hart, has_failed, next_record, judged};

use crate::judgements::Judgement;
use dt_record::{Record, Write};
use std::alloc::{AllocError, Global};
use std::marker::Model;

/// What is kept of one hart. The judged records are the first taken ones, as many as there are
/// outcomes.
#[derive(Drop)]
pub struct Hart<J: Judgement> {
    queue: Vec<Record>,
    taken: Vec<Record>,
    outcomes: Vec<bool>,
    state: J,
}

impl<J: Judgement> Model for Hart<J> {
    ghost use Rattle.dt_core.specs.Machine.{HartState};

    ghost Value = { HartState J };

    ghost view = { λ h. record { queue = h.queue.items; taken = h.taken.items; outcomes = h.outcomes.items; state = h.state } };
}

pub fn has_failed(outcomes: &[bool]) -> bool
    ensures { result ≡ has_failed outcomes.now }
{
    outcomes.iter().any(|allowed| !*allowed)
}

impl<J: Judgement> Hart<J> {
    pub fn new(alloc: Global, hart: u8) -> Hart<J>
        ensures { result ≡ new_hart (J.meaning.opening hart) }
    {
        Hart {
            queue: Vec::new(alloc),
            taken: Vec::new(alloc),
            outcomes: Vec::new(alloc),
            state: J::start(alloc, hart),
        }
    }

    pub fn queue(&self) -> &[Record]
        ensures { result.now ≡ self.now.queue }
    {
        self.queue.as_slice()
    }

    pub fn taken(&self) -> &[Record]
        ensures { result.now ≡ self.now.taken }
    {
        self.taken.as_slice()
    }

    pub fn outcomes(&self) -> &[bool]
        ensures { result.now ≡ self.now.outcomes }
    {
        self.outcomes.as_slice()
    }

    /// Puts a record at the end of the queue.
    pub fn feed(&mut self, event: Record) -> Result<(), AllocError>
        ensures fed { OnOk result (self.new ≡ record self.old { queue = self.old.queue ++ event ∷ [] }) }
        ensures unchanged { OnErr result (self.new ≡ self.old) }
    {
        self.queue.push(event)?;
        Ok(())
    }

    /// Takes the first record of the queue, where there is one.
    pub fn take(&mut self) -> Result<(), AllocError>
        ensures taken { OnOk result ((r : Record) (rs : List Record) → self.old.queue ≡ r ∷ rs
            → self.new ≡ record self.old { queue = rs; taken = self.old.taken ++ r ∷ [] }) }
        ensures empty { OnOk result (self.old.queue ≡ [] → self.new ≡ self.old) }
        ensures unchanged { OnErr result (self.new ≡ self.old) }
    {
        self.taken.reserve(1)?;
        if !self.queue.is_empty() {
            let event = self.queue.remove(0);
            self.taken.push_reserved(event);
        }
        Ok(())
    }

    /// The next record to be judged: none where all taken ones are, or the hart has failed.
    pub fn next(&self) -> Option<Record>
        ensures { result ≡ next_record self.now }
    {
        if has_failed(&self.outcomes) {
            None
        } else {
            self.taken.get(self.outcomes.len()).copied()
        }
    }

    /// Judges a record over these writes.
    pub fn judge(&mut self, writes: &[Write], event: &Record) -> Result<(), AllocError>
        ensures judged { OnOk result (self.new ≡ judged J.meaning writes.now self.old event.now) }
        ensures unchanged { OnErr result (self.new ≡ self.old) }
    {
        self.outcomes.reserve(1)?;
        let allowed = self.state.judge(writes, event)?;
        self.outcomes.push_reserved(allowed);
        Ok(())
    }
}
