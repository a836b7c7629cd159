ghost use Rattle.std.specs.Prelude.{◌≡◌, ℕ, ◌-◌, ◌≤◌, [], ◌∷◌, take, drop, length};
ghost use Rattle.std.specs.VecDeque.{deque_len};
ghost use Rattle.dt_stores.specs.Lines.{places_in, taken_in, FindPlaces, KeepsTaken, SetsTaken};
ghost use Rattle.dt_stores.specs.Past.{buffer_of, before_step, before_steps, released, taken_before, without_last};

use crate::drains::set_drained;
use crate::entries::Entry;
use crate::late::{Late, pop_late};
use crate::lines::{Line, drop_place, drop_taken, places_at};
use crate::steps::Step;
use std::collections::VecDeque;

/// Undoes the steps behind the first `count`, the youngest first. The answer is the place of the
/// oldest store that waits then.
pub fn undo_steps(
    entries: &mut Vec<Entry>,
    lines: &mut [Line],
    late: &mut Vec<Late>,
    first: usize,
    kept: &mut VecDeque<Step>,
    count: usize,
) -> usize
    requires places { FindPlaces lines.old entries.old.items }
    requires within { count ≤ length kept.old.items }
    ensures buffer { let old = buffer_of entries.old.items first late.old.items in
        buffer_of entries.new.items result late.new.items ≡ before_steps old (drop count kept.old.items) }
    ensures places { FindPlaces lines.new entries.new.items }
    ensures taken { (line : ℕ) → taken_in lines.new line ≡ taken_before (taken_in lines.old) (drop count kept.old.items) line }
    ensures kept { kept.new.items ≡ take count kept.old.items }
    ensures len { deque_len kept.new ≤ deque_len kept.old }
{
    let mut first = first;
    while kept.len() > count {
        if let Some(step) = kept.pop_back() {
            first = undo_step(entries, lines, late, first, step);
        }
    }
    first
}

fn undo_step(
    entries: &mut Vec<Entry>,
    lines: &mut [Line],
    late: &mut Vec<Late>,
    first: usize,
    step: Step,
) -> usize
    requires places { FindPlaces lines.old entries.old.items }
    ensures buffer { let old = buffer_of entries.old.items first late.old.items in
        buffer_of entries.new.items result late.new.items ≡ before_step old step }
    ensures places { FindPlaces lines.new entries.new.items }
    ensures taken { (line : ℕ) → taken_in lines.new line ≡ taken_before (taken_in lines.old) (step ∷ []) line }
{
    match step {
        Step::Commit => {
            undo_commit(entries, lines);
            first
        }
        Step::Drain { line, taken, count } => {
            undo_drain(entries.as_mut_slice(), lines, line, taken, count);
            pop_late(late, first)
        }
    }
}

/// Drops the last store.
fn undo_commit(entries: &mut Vec<Entry>, lines: &mut [Line])
    requires { FindPlaces lines.old entries.old.items }
    ensures entries { entries.new.items ≡ without_last entries.old.items }
    ensures places { FindPlaces lines.new entries.new.items }
    ensures taken { KeepsTaken lines.old lines.new }
{
    if let Some(e) = entries.pop() {
        drop_place(lines, e.line());
    }
}

/// Makes so many stores of a line wait again, behind the first that are drained.
fn undo_drain(entries: &mut [Entry], lines: &mut [Line], line: u64, taken: usize, count: u16)
    requires { FindPlaces lines.old entries.old }
    ensures entries { entries.new ≡ released line taken count entries.old }
    ensures places { FindPlaces lines.new entries.new }
    ensures taken { SetsTaken lines.old lines.new line (taken_in lines.old line - count) }
{
    let places = part(places_at(lines, line), taken, usize::from(count));
    set_drained(entries, places, None);
    drop_taken(lines, line, count);
}

/// So many of these places, behind the first of them.
fn part(places: &[u32], from: usize, count: usize) -> &[u32]
    ensures { result.now ≡ take count (drop from places.now) }
{
    let rest = &places[from.min(places.len())..];
    &rest[..count.min(rest.len())]
}
