//! The notes that tell of a hart.
ghost use Rattle.std.specs.Prelude.{◌≡◌, ◌≤◌, ◌<◌, ◌+◌, ◌++◌, length, map, option_to_list, vec_len, vec_capacity, All, OnOk, OnErr};
ghost use Rattle.dt_record.specs.declared.limits.TheConstants.{RECORD_LIMIT};
ghost use Rattle.dt_record.specs.declared.writes.Note.{Note};
ghost use Rattle.dt_record.specs.Lawful.{IsLawful};
ghost use Rattle.dt_record.specs.Writes.{write_of_record};
ghost use Rattle.dt_writes.specs.OwnWrites.{own_writes_from};
ghost use Rattle.dt_intake.specs.Intakes.{reach_of, news_from};

use dt_record::{Note, Record, write_of};
use std::alloc::AllocError;

/// Tells the write of a record, where it makes one.
fn add_write(notes: &mut Vec<Note>, event: &Record, seq: u32)
    requires lawful { IsLawful event.now }
    requires room { vec_len notes.old < vec_capacity notes.old }
    ensures added { notes.new.items ≡ notes.old.items ++ map Note.Wrote (option_to_list (write_of_record seq event.now)) }
    ensures len { vec_len notes.new ≤ vec_len notes.old + 1 }
    ensures capacity { vec_capacity notes.new ≡ vec_capacity notes.old }
{
    if let Some(w) = write_of(event, seq) {
        notes.push_reserved(Note::Wrote(w));
    }
}

/// Tells the writes of records of a hart, the first of which has this number.
fn add_writes(notes: &mut Vec<Note>, first: usize, records: &[Record])
    requires lawful { All (λ r. IsLawful r) records.now }
    requires few { first + length records.now ≤ RECORD_LIMIT }
    requires room { vec_len notes.old + length records.now < vec_capacity notes.old }
    ensures added { notes.new.items ≡ notes.old.items ++ map Note.Wrote (own_writes_from first records.now) }
    ensures room { vec_len notes.new < vec_capacity notes.new }
{
    let mut seq = first as u32;
    for event in records {
        add_write(notes, event, seq);
        seq += 1;
    }
}

/// How far a hart has come with these usable records.
fn reach_of(hart: u8, over: bool, usable: &[Record]) -> Option<Note>
    ensures { option_to_list result ≡ reach_of hart over usable.now }
{
    if over {
        Some(Note::End { hart })
    } else {
        usable.last().map(|event| Note::Mark {
            hart,
            stamp: event.stamp,
        })
    }
}

/// Tells how far a hart has come.
fn add_reach(notes: &mut Vec<Note>, hart: u8, over: bool, usable: &[Record])
    requires { vec_len notes.old < vec_capacity notes.old }
    ensures { notes.new.items ≡ notes.old.items ++ reach_of hart over usable.now }
{
    if let Some(note) = reach_of(hart, over, usable) {
        notes.push_reserved(note);
    }
}

/// Tells the writes of the usable records behind the first ones, and how far the hart has come. There
/// is room for all of it before the first note is added.
pub fn add_news(
    notes: &mut Vec<Note>,
    hart: u8,
    over: bool,
    told: usize,
    usable: &[Record],
) -> Result<(), AllocError>
    requires lawful { All (λ r. IsLawful r) usable.now }
    requires few { length usable.now ≤ RECORD_LIMIT }
    requires within { told ≤ length usable.now }
    ensures added { OnOk result (notes.new.items ≡ notes.old.items ++ news_from hart over told usable.now) }
    ensures unchanged { OnErr result (notes.new.items ≡ notes.old.items) }
{
    let fresh = &usable[told..];
    notes.reserve(fresh.len() + 1)?;
    add_writes(notes, told, fresh);
    add_reach(notes, hart, over, usable);
    Ok(())
}
