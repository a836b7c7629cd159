//! What notes say of writes, and of how far each hart has come.
ghost use Rattle.std.specs.Prelude.{◌≡◌, ◌+◌, ◌||◌, nat_lt, IfOk};
ghost use Rattle.dt_record.specs.Marks.{ends, stamp_in, mark_of, has_ended, least_with, least_mark, can_judge};
ghost use Rattle.dt_core.specs.Marks.{mark_with};
ghost use Rattle.dt_core.specs.Notes.{announced, notes_appended};

use crate::entries::Entry;
use dt_record::{Note, Write};
use std::alloc::{AllocError, Global};

/// The notes of a history.
pub fn notes_appended(alloc: Global, entries: &[Entry]) -> Result<Vec<Note>, AllocError>
    ensures { IfOk result (λ notes. notes.items ≡ notes_appended entries.now) }
{
    let mut notes = Vec::new(alloc);
    for entry in entries {
        notes.push(entry.note)?;
    }
    Ok(notes)
}

/// The writes that notes announce.
pub fn announced(alloc: Global, notes: &[Note]) -> Result<Vec<Write>, AllocError>
    ensures { IfOk result (λ writes. writes.items ≡ announced notes.now) }
{
    let mut writes = Vec::new(alloc);
    for note in notes {
        if let Note::Wrote(w) = note {
            writes.push(*w)?;
        }
    }
    Ok(writes)
}

fn is_end(hart: u8, note: &Note) -> bool
    ensures { result ≡ ends hart note.now }
{
    match note {
        Note::End { hart: h } => *h == hart,
        _ => false,
    }
}

fn has_ended(hart: u8, notes: &[Note]) -> bool
    ensures { result ≡ has_ended hart notes.now }
{
    notes.iter().any(|note| is_end(hart, note))
}

/// The mark after one more note.
fn mark_after(mark: u64, hart: u8, note: &Note) -> u64
    ensures { result ≡ mark_with mark (stamp_in hart note.now) }
{
    match note {
        Note::Mark { hart: h, stamp } if *h == hart => *stamp,
        _ => mark,
    }
}

fn mark_of(hart: u8, notes: &[Note]) -> u64
    ensures { result ≡ mark_of hart notes.now }
{
    let mut mark = 0;
    for note in notes {
        mark = mark_after(mark, hart, note);
    }
    mark
}

fn least_with(mark: u64, least: Option<u64>) -> u64
    ensures { result ≡ least_with mark least }
{
    match least {
        Some(least) => mark.min(least),
        None => mark,
    }
}

/// The least mark of the harts below this one and of this one.
fn least_and(hart: u8, notes: &[Note], least: Option<u64>) -> Option<u64>
    requires { least ≡ least_mark hart notes.now }
    ensures { result ≡ least_mark (hart + 1) notes.now }
{
    if has_ended(hart, notes) {
        least
    } else {
        Some(least_with(mark_of(hart, notes), least))
    }
}

/// The least mark of the harts that have no end; none where all have one.
pub fn least_mark(harts: u8, notes: &[Note]) -> Option<u64>
    ensures { result ≡ least_mark harts notes.now }
{
    let mut least = None;
    for hart in 0..harts {
        least = least_and(hart, notes, least);
    }
    least
}

fn is_past(hart: u8, notes: &[Note], stamp: u64) -> bool
    ensures { result ≡ (has_ended hart notes.now || nat_lt stamp (mark_of hart notes.now)) }
{
    has_ended(hart, notes) || stamp < mark_of(hart, notes)
}

/// Whether a record of this cycle may be judged.
pub fn can_judge(harts: u8, notes: &[Note], stamp: u64) -> bool
    ensures { result ≡ can_judge harts notes.now stamp }
{
    let mut can = true;
    for hart in 0..harts {
        can = is_past(hart, notes, stamp) && can;
    }
    can
}
