ghost use Rattle.std.specs.Prelude.{◌≡◌, ℕ, ◌<◌, ◌≤◌, ◌^◌, Some, IsSome, IfOk, OnOk, take, drop, length};
ghost use Rattle.std.specs.Ordering.{nat_cmp};
ghost use Rattle.std.specs.Map.{set_value};
ghost use Rattle.std.specs.BTreeMap.{get, is_at, Updates};
ghost use Rattle.std.specs.VecDeque.{deque_len};
ghost use Rattle.dt_windows.specs.Kept.{ArePages};
ghost use Rattle.dt_windows.specs.Pages.{present, before_steps, AreSlots, IsWidened, IsStepped, HasSpare};

use crate::steps::{Step, Steps, keep_step};
use dt_record::Key;
use std::alloc::{AllocError, Global};
use std::collections::{BTreeMap, VecDeque};

/// Gives a page a slot, where it has none.
pub fn add_slot(slots: &mut BTreeMap<u64, Option<Key>>, page: u64) -> Result<(), AllocError>
    requires within { page < 2 ^ 52 }
    requires slots { AreSlots slots.old }
    ensures widened { IsWidened slots.old.entries slots.new.entries }
    ensures room { OnOk result (IsSome (get nat_cmp slots.new page)) }
    ensures slots { AreSlots slots.new }
{
    if !slots.contains_key(&page) {
        slots.insert(page, None)?;
    }
    Ok(())
}

/// The slots of these pages.
pub fn slots_of(
    alloc: Global,
    pages: &[(u64, Key)],
) -> Result<BTreeMap<u64, Option<Key>>, AllocError>
    requires { ArePages pages.now }
    ensures pages { IfOk result (λ slots. present slots.entries ≡ pages.now) }
    ensures slots { IfOk result AreSlots }
{
    let mut slots = BTreeMap::new(alloc);
    for (page, key) in pages {
        slots.insert(*page, Some(*key))?;
    }
    Ok(slots)
}

/// The pages that have a key, in order.
pub fn pages_of(
    alloc: Global,
    slots: &BTreeMap<u64, Option<Key>>,
) -> Result<Vec<(u64, Key)>, AllocError>
    ensures { IfOk result (λ pages. pages.items ≡ present slots.now.entries) }
{
    slots
        .iter()
        .filter_map(|(page, key)| key.map(|key| (*page, key)))
        .collect(alloc)
}

/// Gives a page a key, and keeps a step.
pub fn set_key(slots: &mut BTreeMap<u64, Option<Key>>, steps: &mut Steps, page: u64, key: Key)
    requires slots { AreSlots slots.old }
    requires room { IsSome (get nat_cmp slots.old page) }
    requires spare { HasSpare steps.old }
    ensures updates { Updates nat_cmp slots.old slots.new page (Some (Some key)) }
    ensures stepped { IsStepped slots.old.entries slots.new.entries steps.old steps.new }
    ensures slots { AreSlots slots.new }
{
    if let Some(slot) = slots.get_mut(&page) {
        keep_step(steps, Step { page, key: *slot });
        *slot = Some(key);
    }
}

/// Undoes the steps behind the first `count`, the youngest first.
pub fn undo_steps(slots: &mut BTreeMap<u64, Option<Key>>, kept: &mut VecDeque<Step>, count: usize)
    requires slots { AreSlots slots.old }
    requires within { count ≤ length kept.old.items }
    ensures entries { slots.new.entries ≡ before_steps slots.old.entries (drop count kept.old.items) }
    ensures kept { kept.new.items ≡ take count kept.old.items }
    ensures len { deque_len kept.new ≤ deque_len kept.old }
    ensures slots { AreSlots slots.new }
    ensures have { (page : ℕ) → IsSome (get nat_cmp slots.old page) → IsSome (get nat_cmp slots.new page) }
{
    while kept.len() > count {
        if let Some(step) = kept.pop_back() {
            put_key(slots, step.page, step.key);
        }
    }
}

fn put_key(slots: &mut BTreeMap<u64, Option<Key>>, page: u64, key: Option<Key>)
    requires { AreSlots slots.old }
    ensures entries { slots.new.entries ≡ set_value (is_at (nat_cmp page)) slots.old.entries key }
    ensures slots { AreSlots slots.new }
    ensures have { (other : ℕ) → IsSome (get nat_cmp slots.old other) → IsSome (get nat_cmp slots.new other) }
{
    if let Some(slot) = slots.get_mut(&page) {
        *slot = key;
    }
}
