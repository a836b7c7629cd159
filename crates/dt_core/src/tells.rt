//! What a worker tells of its harts.
ghost use Rattle.std.specs.Prelude.{◌≡◌, ◌≤◌, ◌<◌, ◌++◌, ℕ, length, map, take, drop, option_to_list, if◌then◌else◌, IfOk, OnOk, OnErr, IsTrue};
ghost use Rattle.dt_record.specs.declared.limits.TheConstants.{HART_LIMIT, RECORD_LIMIT};
ghost use Rattle.dt_record.specs.declared.writes.Note.{Note};
ghost use Rattle.dt_core.specs.Machine.{HartState, is_mine, reach_by, new_writes, news_by, told};
ghost use Rattle.dt_core.specs.Notes.{announced, hart_writes, notes_appended, entries_by};
ghost use Rattle.dt_core.specs.Own.{AreOfHart, AreTaken};

use crate::entries::Entry;
use crate::harts::Hart;
use crate::judgements::Judgement;
use crate::notes::{announced, notes_appended};
use crate::writes::writes_by;
use dt_record::{Note, Record, Write};
use std::alloc::{AllocError, Global};

/// Appends notes as entries of a worker.
pub fn add_entries(history: &mut Vec<Entry>, worker: u8, notes: &[Note]) -> Result<(), AllocError>
    ensures { OnOk result (history.new.items ≡ history.old.items ++ entries_by worker notes.now) }
{
    for note in notes {
        history.push(Entry {
            worker,
            note: *note,
        })?;
    }
    Ok(())
}

/// How many of the writes are the hart's.
fn count_of(hart: u8, writes: &[Write]) -> usize
    ensures { result ≡ length (hart_writes hart writes.now) }
{
    writes.iter().filter(|w| w.key.hart == hart).count()
}

/// How many writes of the hart are announced.
fn announced_len(alloc: Global, hart: u8, notes: &[Note]) -> Result<usize, AllocError>
    ensures { IfOk result (λ n. n ≡ length (hart_writes hart (announced notes.now))) }
{
    let writes = announced(alloc, notes)?;
    Ok(count_of(hart, &writes))
}

/// Appends the writes as notes, without the first ones.
fn add_writes(notes: &mut Vec<Note>, writes: &[Write]) -> Result<(), AllocError>
    ensures { OnOk result (notes.new.items ≡ notes.old.items ++ map Note.Wrote writes.now) }
{
    for w in writes {
        notes.push(Note::Wrote(*w))?;
    }
    Ok(())
}

/// How far the hart has come: to its end, once no more records come and none is queued. Before that
/// it has come to the cycle of the record that it took last, where it took one.
fn reach_of(is_ended: bool, hart: u8, queue: &[Record], taken: &[Record]) -> Option<Note>
    ensures { option_to_list result ≡ reach_by is_ended hart queue.now taken.now }
{
    if is_ended && queue.is_empty() {
        Some(Note::End { hart })
    } else {
        taken.last().map(|event| Note::Mark {
            hart,
            stamp: event.stamp,
        })
    }
}

/// What is to be told of one hart after these notes.
fn news_of<J: Judgement>(
    alloc: Global,
    is_ended: bool,
    hart: u8,
    state: &Hart<J>,
    notes: &[Note],
) -> Result<Vec<Note>, AllocError>
    requires own { AreOfHart hart state.now.taken }
    requires few { length state.now.taken ≤ RECORD_LIMIT }
    ensures { IfOk result (λ news. news.items ≡ news_by is_ended hart state.now notes.now) }
{
    let told = announced_len(alloc, hart, notes)?;
    let writes = writes_by(alloc, hart, state.taken())?;
    let mut news = Vec::new(alloc);
    add_writes(&mut news, &writes[told.min(writes.len())..])?;
    if let Some(note) = reach_of(is_ended, hart, state.queue(), state.taken()) {
        news.push(note)?;
    }
    Ok(news)
}

pub fn is_mine(workers: u8, worker: u8, hart: u8) -> bool
    requires { 1 ≤ workers }
    ensures { result ≡ is_mine workers worker hart }
{
    hart % workers == worker
}

/// Appends what the worker has to tell of one hart, where it is the worker's.
fn tell_hart<J: Judgement>(
    alloc: Global,
    by: Teller,
    hart: u8,
    state: &Hart<J>,
    history: &mut Vec<Entry>,
) -> Result<(), AllocError>
    requires workers { 1 ≤ by.workers }
    requires own { AreOfHart hart state.now.taken }
    requires few { length state.now.taken ≤ RECORD_LIMIT }
    ensures { OnOk result (history.new.items
        ≡ (if is_mine by.workers by.worker hart
        then history.old.items ++ entries_by by.worker (news_by by.is_ended hart state.now (notes_appended history.old.items))
        else history.old.items)) }
{
    if is_mine(by.workers, by.worker, hart) {
        let notes = notes_appended(alloc, history)?;
        let news = news_of(alloc, by.is_ended, hart, state, &notes)?;
        add_entries(history, by.worker, &news)?;
    }
    Ok(())
}

/// Who tells, among how many, and whether the end of all harts was fed.
#[derive(Clone, Copy)]
pub struct Teller {
    pub workers: u8,
    pub worker: u8,
    pub is_ended: bool,
}

/// The history after the worker has told of all its harts.
pub fn told<J: Judgement>(
    alloc: Global,
    by: Teller,
    harts: &[Hart<J>],
    history: &[Entry],
) -> Result<Vec<Entry>, AllocError>
    requires workers { 1 ≤ by.workers }
    requires few { length harts.now ≤ HART_LIMIT }
    requires taken { AreTaken harts.now }
    ensures { IfOk result (λ all. all.items ≡ told by.workers by.worker by.is_ended 0 harts.now history.now) }
{
    let mut all = Vec::from_slice(alloc, history)?;
    for (hart, state) in harts.iter().enumerate() {
        tell_hart(alloc, by, hart as u8, state, &mut all)?;
    }
    Ok(all)
}
