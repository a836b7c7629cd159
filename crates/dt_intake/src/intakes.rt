ghost use Rattle.std.specs.Prelude.{◌≡◌, ◌<◌, ◌++◌, false, OnOk, OnErr};
ghost use Rattle.dt_intake.specs.Fronts.{usable_front, AreUsable};
ghost use Rattle.dt_intake.specs.Intakes.{new_intake, is_feed_end, with_record, is_over, news_of, has_news, after_telling};

use crate::fronts::usable_len_with;
use crate::news::add_news;
use dt_record::{Body, Note, Record};
use std::alloc::{AllocError, Global};
use std::marker::Model;

/// The hart of the Beat that ends a feed. No file has such a hart.
const FEED_END: u8 = 255;

/// What a worker has taken of one hart, and how much of it it has told.
///
/// Only the usable records are told, and are to be judged: from the first other record on, all that is
/// taken is kept and no more.
#[derive(Drop)]
pub struct Intake {
    hart: u8,
    taken: Vec<Record>,
    usable_len: usize,
    told: usize,
    ended: bool,
    end_told: bool,
}

impl Model for Intake {
    ghost use Rattle.std.specs.Prelude.{◌-◌, vec_len, vec_capacity};
    ghost use Rattle.dt_intake.specs.Intakes.{IntakeView, IsCounted};

    ghost Value = { IntakeView };

    ghost view = { λ s. record {
      hart = s.hart;
      taken = s.taken.items;
      ended = s.ended;
      told = s.told;
      end_told = s.end_told;
      room = vec_capacity s.taken - vec_len s.taken;
    } };

    ghost invariant = { λ s. IsCounted s.hart s.taken.items s.usable_len s.told };
}

fn is_feed_end(event: &Record) -> bool
    ensures { result ≡ is_feed_end event.now }
{
    event.hart == FEED_END && matches!(event.body, Body::Beat)
}

impl Intake {
    /// Nothing is taken yet.
    pub fn new(alloc: Global, hart: u8) -> Intake
        ensures { result ≡ new_intake hart }
    {
        Intake {
            hart,
            taken: Vec::new(alloc),
            usable_len: 0,
            told: 0,
            ended: false,
            end_told: false,
        }
    }

    pub fn hart(&self) -> u8
        ensures { result ≡ self.now.hart }
    {
        self.hart
    }

    /// Makes room for one more record at least.
    pub fn reserve(&mut self) -> Result<(), AllocError>
        ensures room { OnOk result (0 < self.new.room) }
        ensures same { OnOk result (self.new ≡ record self.old { room = self.new.room }) }
        ensures unchanged { OnErr result (self.new ≡ self.old) }
        ensures full { OnErr result (self.old.room ≡ 0) }
    {
        self.taken.reserve(1)?;
        Ok(())
    }

    /// Takes the next record of the feed, or its end.
    pub fn take(&mut self, event: Record)
        requires room { 0 < self.old.room }
        requires goes_on { self.old.ended ≡ false }
        ensures { self.new ≡ with_record self.old event }
    {
        if is_feed_end(&event) {
            self.ended = true;
        } else {
            self.usable_len = usable_len_with(self.hart, &self.taken, self.usable_len, &event);
            self.taken.push_reserved(event);
        }
    }

    /// Whether there is a usable record that was not told, or an End that was not.
    pub fn has_news(&self) -> bool
        ensures { result ≡ has_news self.now }
    {
        self.told < self.usable_len || (self.is_over() && !self.end_told)
    }

    /// Puts what there is to tell behind the notes: the writes of the usable records that were not told
    /// yet, and how far the hart has come. It counts as told once `note_told` says so.
    pub fn add_news(&self, notes: &mut Vec<Note>) -> Result<(), AllocError>
        ensures appended { OnOk result (notes.new.items ≡ notes.old.items ++ news_of self.now) }
        ensures unchanged { OnErr result (notes.new.items ≡ notes.old.items) }
    {
        let over = self.is_over();
        let usable = &self.taken[..self.usable_len];
        add_news(notes, self.hart, over, self.told, usable)
    }

    /// What there is to tell was told.
    pub fn note_told(&mut self)
        ensures { self.new ≡ after_telling self.old }
    {
        self.end_told = self.is_over();
        self.told = self.usable_len;
    }

    /// The records that were taken and may be judged.
    pub fn usable(&self) -> &[Record]
        ensures front { result.now ≡ usable_front self.now.hart self.now.taken }
        ensures usable { AreUsable self.now.hart result.now }
    {
        &self.taken[..self.usable_len]
    }

    /// Whether the end of the feed was taken.
    pub fn has_ended(&self) -> bool
        ensures { result ≡ self.now.ended }
    {
        self.ended
    }

    /// Whether the feed has ended and all that was taken is usable.
    pub fn is_over(&self) -> bool
        ensures { result ≡ is_over self.now }
    {
        self.ended && self.usable_len == self.taken.len()
    }

    /// All records that were taken, without the end of the feed.
    pub fn into_taken(self) -> Vec<Record>
        ensures { result.items ≡ self.taken }
    {
        self.taken
    }
}
