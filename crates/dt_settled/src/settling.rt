ghost use Rattle.std.specs.Prelude.{◌≡◌, ◌≤◌, ◌<◌, ◌+◌, ◌-◌, ◌^◌, length, take, drop, None, IsTrue, OnOk, OnErr};
ghost use mathlib.Core.List.{IsPrefix};
ghost use Rattle.dt_core.specs.Marks.{is_below};
ghost use Rattle.dt_core.specs.Notes.{write_in};
ghost use Rattle.dt_versions.specs.History.{history, are_in_order};
ghost use Rattle.dt_settled.specs.Settling.{new_settled, first_below, Adds, Moves, LooksAt, Settles, StaysTrue, SettlesMore, StaysTrueMore};
ghost use Rattle.dt_settled.specs.Waiting.{waiting_with, waiting_after};

use crate::waiting::Waiting;
use dt_record::{Image, Note, Write};
use dt_versions::Moments;
use std::alloc::{AllocError, Global};
use std::marker::Model;

/// One worker's memory of the writes that notes announce. A write settles once no hart can precede
/// it any more; until then it waits.
#[derive(Drop)]
pub struct Settled {
    moments: Moments,
    waiting: Waiting,
    seen: usize,
}

impl Model for Settled {
    ghost use Rattle.std.specs.Prelude.{IsTrue};
    ghost use Rattle.dt_versions.specs.History.{are_in_order};
    ghost use Rattle.dt_settled.specs.Settling.{SettledView};

    ghost Value = { SettledView };

    ghost view = { λ s. record { image = s.moments.image; writes = s.moments.writes; waiting = s.waiting; seen = s.seen } };

    ghost invariant = { λ s. IsTrue (are_in_order s.waiting) };
}

impl Settled {
    /// The image alone: no note was seen.
    pub fn new(alloc: Global, image: Image) -> Settled
        ensures { result ≡ new_settled image }
    {
        Settled {
            moments: Moments::empty(alloc, image),
            waiting: Waiting::new(alloc),
            seen: 0,
        }
    }

    /// Takes the writes of the notes that it has not seen, and lets those below the least mark
    /// settle in the order of their keys, or all where there is none. A write that memory cannot take
    /// is left out. What has settled stays, whatever the marks do. After want of memory it has seen
    /// some of the notes, and a later look goes on from there.
    pub fn see(&mut self, notes: &[Note], least: Option<u64>) -> Result<(), AllocError>
        requires { self.old.seen ≤ length notes.now }
        ensures settles { OnOk result (Settles self.old self.new notes.now least) }
        ensures stays_true { OnErr result (StaysTrue self.old self.new notes.now least) }
        ensures seen { OnOk result (self.new.seen ≡ length notes.now) }
        ensures within { self.new.seen ≤ length notes.now }
        ensures image { self.new.image ≡ self.old.image }
        ensures grows { IsPrefix self.old.writes self.new.writes }
        ensures looks { LooksAt (drop self.old.seen notes.now) least self.old self.new }
        ensures done { OnOk result (first_below least self.new.waiting ≡ None) }
    {
        self.see_more(&notes[self.seen..], least)
    }

    /// As `see`, of the notes alone that come behind those that it has seen.
    pub fn see_more(&mut self, more: &[Note], least: Option<u64>) -> Result<(), AllocError>
        ensures settles { OnOk result (SettlesMore self.old self.new more.now least) }
        ensures stays_true { OnErr result (StaysTrueMore self.old self.new more.now least) }
        ensures seen { OnOk result (self.new.seen ≡ self.old.seen + length more.now) }
        ensures rises { self.old.seen ≤ self.new.seen }
        ensures within { self.new.seen ≤ self.old.seen + length more.now }
        ensures image { self.new.image ≡ self.old.image }
        ensures grows { IsPrefix self.old.writes self.new.writes }
        ensures looks { LooksAt more.now least self.old self.new }
        ensures done { OnOk result (first_below least self.new.waiting ≡ None) }
    {
        // More notes than can be counted are more than memory can hold.
        if usize::MAX - self.seen < more.len() {
            return Err(AllocError);
        }
        take_in(&mut self.waiting, &mut self.seen, more)?;
        settle(&mut self.moments, &mut self.waiting, least)
    }

    /// The settled writes, as memory over time.
    pub fn moments(&self) -> &Moments
        ensures { result.now ≡ history self.now.image self.now.writes }
    {
        &self.moments
    }
}

/// Takes the writes of the notes, and counts these.
fn take_in(waiting: &mut Waiting, seen: &mut usize, more: &[Note]) -> Result<(), AllocError>
    requires { seen.old + length more.now < 2 ^ 64 }
    ensures taken { waiting.new ≡ waiting_after waiting.old (take (seen.new - seen.old) more.now) }
    ensures in_order { IsTrue (are_in_order waiting.old) → IsTrue (are_in_order waiting.new) }
    ensures all { OnOk result (seen.new ≡ seen.old + length more.now) }
    ensures rises { seen.old ≤ seen.new }
    ensures within { seen.new ≤ seen.old + length more.now }
{
    for note in more {
        hold(waiting, note)?;
        *seen += 1;
    }
    Ok(())
}

/// Takes the write of a note, where it announces one.
fn hold(waiting: &mut Waiting, note: &Note) -> Result<(), AllocError>
    ensures held { OnOk result (waiting.new ≡ waiting_with (write_in note.now) waiting.old) }
    ensures unchanged { OnErr result (waiting.new ≡ waiting.old) }
    ensures in_order { IsTrue (are_in_order waiting.old) → IsTrue (are_in_order waiting.new) }
{
    if let Note::Wrote(w) = note {
        waiting.insert(*w)?;
    }
    Ok(())
}

/// Moves the waiting writes below the mark behind the settled ones.
fn settle(
    moments: &mut Moments,
    waiting: &mut Waiting,
    least: Option<u64>,
) -> Result<(), AllocError>
    ensures moved { Moves least moments.old waiting.old moments.new waiting.new }
    ensures done { OnOk result (first_below least waiting.new ≡ None) }
{
    while let Some(w) = first_below(waiting, least) {
        add(moments, w)?;
        waiting.drop_first();
    }
    Ok(())
}

/// The first waiting write, where it is below the mark.
fn first_below(waiting: &Waiting, least: Option<u64>) -> Option<Write>
    ensures { result ≡ first_below least waiting.now }
{
    match waiting.first() {
        Some(w) if is_below(least, w.key.stamp) => Some(w),
        _ => None,
    }
}

fn is_below(least: Option<u64>, stamp: u64) -> bool
    ensures { result ≡ is_below least stamp }
{
    match least {
        Some(mark) => stamp < mark,
        None => true,
    }
}

/// Adds a write, or leaves it out where it cannot be added.
fn add(moments: &mut Moments, w: Write) -> Result<(), AllocError>
    ensures added { OnOk result (Adds w moments.old moments.new) }
    ensures unchanged { OnErr result (moments.new ≡ moments.old) }
{
    if moments.can_add(&w) {
        moments.add(w)?;
    }
    Ok(())
}
