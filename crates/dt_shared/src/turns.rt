//! The line before the slot: who has its turn alone reads and writes the list.
ghost use Rattle.std.specs.Prelude.{◌≡◌, ℕ, List, [], ◌∷◌, ◌++◌, OnOk, OnErr, MatchResult};
ghost use mathlib.Core.List.{IsPrefix};
ghost use Rattle.dt_shared.specs.declared.entries.Entry.{Entry};
ghost use Rattle.dt_shared.specs.declared.views.Known.{Known};
ghost use Rattle.dt_shared.specs.Entries.{notes_in, entries_of};
ghost use Rattle.dt_shared.specs.Steps.{Agrees};
ghost use Rattle.dt_shared.specs.Turns.{IsSized, Rests, IsAtRest, HasTurn, IsInTurn, HasTurnOf, appended, caught_up};

use crate::entries::Entry;
use crate::law::{Board, COUNT, Come, Draw, Leave, Look, Place, Publish, SERVING, TICKET};
use crate::replicas::Replica;
use crossbeam_utils::Backoff;
use dt_record::Note;
use std::alloc::AllocError;
use std::sync::Wait;

// Draws a ticket and waits until it is served. The seat then has the slot.
fn wait_turn<R: Wait>(rt: &R, board: &Board, seat: &mut Place)
    requires table { (seat.old.table_id ≡ board.now.table_id) × IsSized board.now.table_id }
    requires rests { IsAtRest seat.old.me }
    ensures table { seat.new.table_id ≡ seat.old.table_id }
    ensures turn { (k : Known) (made : ℕ) → Rests k made seat.old.me
        → (t : ℕ) × (history : List Entry) × Agrees history k × HasTurn k made t history seat.new.me }
{
    let ticket = board.fetch_add::<Draw>(seat, TICKET, 1);
    let backoff = Backoff::new();
    for _ in rt.forever() {
        if board.load::<Come>(seat, SERVING) == ticket {
            return;
        }
        backoff.snooze();
    }
}

fn add_entries(list: &mut Vec<Entry>, pass: u8, notes: &[Note]) -> Result<(), AllocError>
    ensures ok { OnOk result (list.new.items ≡ list.old.items ++ entries_of pass notes.now) }
    ensures err { OnErr result (list.new.items ≡ list.old.items) }
{
    list.reserve(notes.len())?;
    for note in notes {
        list.push_reserved(Entry { pass, note: *note });
    }
    Ok(())
}

// Puts notes behind the history, at one step. After want of memory the history is as it was.
fn append_in_turn(
    board: &Board,
    seat: &mut Place,
    pass: u8,
    notes: &[Note],
) -> Result<(), AllocError>
    requires table { (seat.old.table_id ≡ board.now.table_id) × IsSized board.now.table_id }
    requires turn { HasTurnOf pass seat.old.me }
    ensures table { seat.new.table_id ≡ seat.old.table_id }
    ensures turn { (k : Known) (made t : ℕ) (history : List Entry) → k.number ≡ pass
        → HasTurn k made t history seat.old.me
        → let all = history ++ entries_of k.number notes.now in
        MatchResult result (λ _. HasTurn (appended k history notes.now) made t all seat.new.me)
        (λ _. HasTurn k made t history seat.new.me) }
{
    let list = seat.slot_mut(board, 0);
    add_entries(list, pass, notes)?;
    board.fetch_add::<Publish>(seat, COUNT, notes.len() as u64);
    Ok(())
}

// Brings the replica up to the history, which is then seen. After want of memory both are as they were.
fn look_in_turn(board: &Board, seat: &mut Place, to: &mut Replica) -> Result<(), AllocError>
    requires table { (seat.old.table_id ≡ board.now.table_id) × IsSized board.now.table_id }
    requires turn { (k : Known) × (made : ℕ) × (t : ℕ) × (history : List Entry)
        × HasTurn k made t history seat.old.me × IsPrefix to.old.notes (notes_in history) }
    ensures table { seat.new.table_id ≡ seat.old.table_id }
    ensures turn { (k : Known) (made t : ℕ) (history : List Entry)
        → HasTurn k made t history seat.old.me
        → MatchResult result (λ _. HasTurn (caught_up k history) made t history seat.new.me)
        (λ _. HasTurn k made t history seat.new.me) }
    ensures replica { (k : Known) (made t : ℕ) (history : List Entry)
        → HasTurn k made t history seat.old.me
        → MatchResult result (λ _. to.new ≡ record to.old { notes = notes_in history })
        (λ _. to.new ≡ to.old) }
{
    let list = seat.slot_mut(board, 0);
    to.catch_up(list.as_slice())?;
    board.load::<Look>(seat, COUNT);
    Ok(())
}

// Gives the slot back to whoever is next.
fn leave_turn(board: &Board, seat: &mut Place)
    requires table { (seat.old.table_id ≡ board.now.table_id) × IsSized board.now.table_id }
    requires turn { IsInTurn seat.old.me }
    ensures table { seat.new.table_id ≡ seat.old.table_id }
    ensures rests { (k : Known) (made t : ℕ) (history : List Entry)
        → HasTurn k made t history seat.old.me → Rests k made seat.new.me }
{
    board.fetch_add::<Leave>(seat, SERVING, 1);
}

/// Waits for the slot, puts the notes of the pass behind the history, and gives the slot back.
pub(crate) fn append_at<R: Wait>(
    rt: &R,
    board: &Board,
    seat: &mut Place,
    pass: u8,
    notes: &[Note],
) -> Result<(), AllocError>
    requires table { (seat.old.table_id ≡ board.now.table_id) × IsSized board.now.table_id }
    requires rests { (k : Known) × (made : ℕ) × (k.number ≡ pass) × Rests k made seat.old.me }
    ensures table { seat.new.table_id ≡ seat.old.table_id }
    ensures told { (k : Known) (made : ℕ) → k.number ≡ pass → Rests k made seat.old.me
        → MatchResult result
        (λ _. (history : List Entry) × Agrees history k
        × Rests (appended k history notes.now) made seat.new.me)
        (λ _. Rests k made seat.new.me) }
{
    wait_turn(rt, board, seat);
    let added = append_in_turn(board, seat, pass, notes);
    leave_turn(board, seat);
    added
}

/// Waits for the slot, brings the replica up to the history, and gives the slot back.
pub(crate) fn look_at<R: Wait>(
    rt: &R,
    board: &Board,
    seat: &mut Place,
    to: &mut Replica,
) -> Result<(), AllocError>
    requires table { (seat.old.table_id ≡ board.now.table_id) × IsSized board.now.table_id }
    requires rests { (k : Known) × (made : ℕ) × Rests k made seat.old.me
        × IsPrefix to.old.notes (notes_in k.seen) }
    ensures table { seat.new.table_id ≡ seat.old.table_id }
    ensures told { (k : Known) (made : ℕ) → Rests k made seat.old.me
        → MatchResult result
        (λ _. (history : List Entry) × Agrees history k × Rests (caught_up k history) made seat.new.me
        × (to.new ≡ record to.old { notes = notes_in history }))
        (λ _. Rests k made seat.new.me × (to.new ≡ to.old)) }
{
    wait_turn(rt, board, seat);
    let looked = look_in_turn(board, seat, to);
    leave_turn(board, seat);
    looked
}
