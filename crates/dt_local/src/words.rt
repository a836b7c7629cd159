ghost use Rattle.std.specs.Prelude.{◌≡◌, ℕ, ◌+◌, ◌*◌, ◌/◌, ◌%◌, ◌<◌, ◌≤◌, ◌==◌, None, IsTrue, IsSome, OnOk, if◌then◌else◌, take, drop, length};
ghost use Rattle.std.specs.Ordering.{nat_cmp};
ghost use Rattle.std.specs.Map.{lookup, set_value};
ghost use Rattle.std.specs.BTreeMap.{get, is_at, IsOrdered};
ghost use Rattle.std.specs.VecDeque.{deque_len, deque_capacity};
ghost use Rattle.dt_record.specs.Lawful.{is_ram_line};
ghost use Rattle.dt_local.specs.LocalMemory.{greater, noted_key};
ghost use Rattle.dt_local.specs.Slots.{slot_key, is_ram_word, noted_in, before_steps, AreWords, HasRoom, HaveSlots, IsWidened, IsStepped, HasSpare};

use crate::slots::{Slot, empty_slot, has_word, raise_slot};
use crate::steps::{Step, Steps, keep_step};
use dt_record::Key;
use std::alloc::AllocError;
use std::collections::{BTreeMap, VecDeque};

/// Gives each word of the line that the mask has a byte of a slot, where it has none.
pub fn make_room(slots: &mut BTreeMap<u64, Slot>, line: u64, mask: u64) -> Result<(), AllocError>
    requires line { IsTrue (is_ram_line line) }
    requires words { AreWords slots.old }
    ensures widened { IsWidened slots.old.entries slots.new.entries }
    ensures room { OnOk result (HasRoom slots.new line mask) }
    ensures words { AreWords slots.new }
{
    for place in 0..8 {
        if has_word(mask, place) {
            add_slot(slots, line / 8 + place as u64)?;
        }
    }
    Ok(())
}

fn add_slot(slots: &mut BTreeMap<u64, Slot>, word: u64) -> Result<(), AllocError>
    requires in_ram { IsTrue (is_ram_word word) }
    requires words { AreWords slots.old }
    ensures widened { IsWidened slots.old.entries slots.new.entries }
    ensures room { OnOk result (IsSome (get nat_cmp slots.new word)) }
    ensures words { AreWords slots.new }
{
    if !slots.contains_key(&word) {
        slots.insert(word, empty_slot())?;
    }
    Ok(())
}

/// Raises the keys of these bytes of the line to the given ones, where those are greater.
pub fn raise_all(
    slots: &mut BTreeMap<u64, Slot>,
    steps: &mut Steps,
    line: u64,
    mask: u64,
    keys: &[Key; 64],
)
    requires line { IsTrue (is_ram_line line) }
    requires words { AreWords slots.old }
    requires room { HasRoom slots.old line mask }
    requires spare { HasSpare steps.old 8 }
    ensures raised { (addr : ℕ) → slot_key slots.new.entries addr
        ≡ greater (slot_key slots.old.entries addr) (noted_key line mask keys.now addr) }
    ensures stepped { IsStepped slots.old.entries slots.new.entries steps.old steps.new 8 }
    ensures words { AreWords slots.new }
{
    for place in 0..8 {
        if has_word(mask, place) {
            raise_word(slots, steps, line / 8 + place as u64, mask, keys, place);
        }
    }
}

/// Raises the keys of a word, which stands at a place of its line, and keeps a step.
fn raise_word(
    slots: &mut BTreeMap<u64, Slot>,
    steps: &mut Steps,
    word: u64,
    mask: u64,
    keys: &[Key; 64],
    place: usize,
)
    requires within { place < 8 }
    requires words { AreWords slots.old }
    requires room { IsSome (get nat_cmp slots.old word) }
    requires spare { HasSpare steps.old 1 }
    ensures raised { (addr : ℕ) → slot_key slots.new.entries addr
        ≡ greater (slot_key slots.old.entries addr) (if addr / 8 == word then noted_in mask keys.now (8 * place + addr % 8) else None) }
    ensures stepped { IsStepped slots.old.entries slots.new.entries steps.old steps.new 1 }
    ensures words { AreWords slots.new }
{
    if let Some(slot) = slots.get_mut(&word) {
        keep_step(steps, Step { word, slot: *slot });
        raise_slot(slot, mask, keys, place);
    }
}

/// Undoes the steps behind the first `count`, the youngest first.
pub fn undo_steps(slots: &mut BTreeMap<u64, Slot>, kept: &mut VecDeque<Step>, count: usize)
    requires words { AreWords slots.old }
    requires within { count ≤ length kept.old.items }
    ensures entries { slots.new.entries ≡ before_steps slots.old.entries (drop count kept.old.items) }
    ensures kept { kept.new.items ≡ take count kept.old.items }
    ensures len { deque_len kept.new ≤ deque_len kept.old }
    ensures words { AreWords slots.new }
    ensures have { (word : ℕ) → IsSome (get nat_cmp slots.old word) → IsSome (get nat_cmp slots.new word) }
{
    while kept.len() > count {
        if let Some(step) = kept.pop_back() {
            put_slot(slots, step.word, step.slot);
        }
    }
}

fn put_slot(slots: &mut BTreeMap<u64, Slot>, word: u64, slot: Slot)
    requires { AreWords slots.old }
    ensures entries { slots.new.entries ≡ set_value (is_at (nat_cmp word)) slots.old.entries slot }
    ensures words { AreWords slots.new }
    ensures have { (other : ℕ) → IsSome (get nat_cmp slots.old other) → IsSome (get nat_cmp slots.new other) }
{
    if let Some(found) = slots.get_mut(&word) {
        *found = slot;
    }
}

/// Drops the first `count` steps.
pub fn forget_steps(kept: &mut VecDeque<Step>, count: usize)
    requires { count ≤ length kept.old.items }
    ensures kept { kept.new.items ≡ drop count kept.old.items }
    ensures len { deque_len kept.new + count ≡ deque_len kept.old }
    ensures capacity { deque_capacity kept.new ≡ deque_capacity kept.old }
{
    for _ in 0..count {
        let _ = kept.pop_front();
    }
}
