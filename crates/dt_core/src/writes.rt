//! Lists of writes.
ghost use Rattle.std.specs.Prelude.{◌≡◌, ◌≤◌, length, not, IfOk, OnOk};
ghost use Rattle.std.specs.List.{prefix_len};
ghost use Rattle.dt_record.specs.declared.limits.TheConstants.{RECORD_LIMIT};
ghost use Rattle.dt_record.specs.Keys.{key_below};
ghost use Rattle.dt_record.specs.Writes.{insert_write, by_key};
ghost use Rattle.dt_core.specs.Machine.{usable_below, usable};
ghost use Rattle.dt_core.specs.Notes.{writes_below};
ghost use Rattle.dt_core.specs.Own.{AreOfHart};
ghost use Rattle.dt_core.specs.Sound.{writes_by};

use crate::notes::{announced, least_mark};
use dt_record::{Key, Note, Record, Write, write_of};
use std::alloc::{AllocError, Global};

fn is_not_above(w: &Write, key: Key) -> bool
    ensures { result ≡ not (key_below key w.now.key) }
{
    w.key <= key
}

/// The place before the first write with a key above this one.
fn place_of(writes: &[Write], key: Key) -> usize
    ensures place { result ≡ prefix_len (λ w. not (key_below key w.key)) writes.now }
    ensures within { result ≤ length writes.now }
{
    writes.iter().take_while(|w| is_not_above(w, key)).count()
}

/// Puts a write among others in the order of keys.
fn insert_write(writes: &mut Vec<Write>, w: Write) -> Result<(), AllocError>
    ensures { OnOk result (writes.new.items ≡ insert_write w writes.old.items) }
{
    let place = place_of(writes, w.key);
    writes.insert(place, w)?;
    Ok(())
}

/// The writes in the order of their keys.
fn by_key(alloc: Global, writes: &[Write]) -> Result<Vec<Write>, AllocError>
    ensures { IfOk result (λ sorted. sorted.items ≡ by_key writes.now) }
{
    let mut sorted = Vec::new(alloc);
    for place in (0..writes.len()).rev() {
        insert_write(&mut sorted, writes[place])?;
    }
    Ok(sorted)
}

/// The writes below a cycle.
fn writes_below(alloc: Global, stamp: u64, writes: &[Write]) -> Result<Vec<Write>, AllocError>
    ensures { IfOk result (λ below. below.items ≡ writes_below stamp writes.now) }
{
    let mut below = Vec::new(alloc);
    for w in writes {
        if w.key.stamp < stamp {
            below.push(*w)?;
        }
    }
    Ok(below)
}

/// The writes that a judgement may use by these notes, in the order of their keys: those below the
/// least mark, and all where all harts have ended.
pub fn usable(alloc: Global, harts: u8, notes: &[Note]) -> Result<Vec<Write>, AllocError>
    ensures { IfOk result (λ writes. writes.items ≡ usable harts notes.now) }
{
    let sorted = by_key(alloc, &announced(alloc, notes)?)?;
    match least_mark(harts, notes) {
        Some(least) => writes_below(alloc, least, &sorted),
        None => Ok(sorted),
    }
}

/// The writes of one hart's records.
pub fn writes_by(alloc: Global, hart: u8, records: &[Record]) -> Result<Vec<Write>, AllocError>
    requires own { AreOfHart hart records.now }
    requires few { length records.now ≤ RECORD_LIMIT }
    ensures { IfOk result (λ writes. writes.items ≡ writes_by records.now) }
{
    let mut writes = Vec::new(alloc);
    for (seq, event) in records.iter().enumerate() {
        if let Some(w) = write_of(event, seq as u32) {
            writes.push(w)?;
        }
    }
    Ok(writes)
}
