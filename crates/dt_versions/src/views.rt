ghost use Rattle.std.specs.Prelude.{◌≡◌, ℕ, ◌<◌, ◌≤◌, ◌==◌, ◌&&◌, length, slice_index_or, true, false, not, IsTrue};
ghost use Rattle.dt_record.specs.declared.writes.Write.{Write};
ghost use Rattle.std.specs.List.{list_any};
ghost use Rattle.std.specs.List.Sorted.{IsNonDecreasingBy, IsPartitionPoint, IsPartitionedBy};
ghost use Rattle.dt_record.specs.Keys.{key_below};
ghost use Rattle.dt_record.specs.Memory.{is_touched, moment_of};
ghost use Rattle.dt_versions.specs.Cycles.{IsCycle, is_up_to_before, is_up_to_own};
ghost use Rattle.dt_versions.specs.History.{are_in_order};
ghost use Rattle.dt_versions.specs.Spans.{first_visible, last_visible, AreVisible};

use dt_record::{Key, Write};

fn is_before(w: &Write, key: Key) -> bool
    ensures { result ≡ key_below w.now.key key }
{
    w.key < key
}

/// How many writes stand before the record.
pub fn earlier_len(writes: &[Write], key: Key) -> usize
    requires { IsTrue (are_in_order writes.now) }
    ensures within { result ≤ length writes.now }
    ensures value { result ≡ moment_of writes.now key }
    ensures parts { IsPartitionPoint (λ w. key_below w.key key ≡ true) (λ w. key_below w.key key ≡ false) writes.now result }
{
    writes.partition_point(|w| is_before(w, key))
}

fn is_not_after(w: &Write, key: Key) -> bool
    ensures { result ≡ not (key_below key w.now.key) }
{
    w.key <= key
}

/// How many writes do not stand after a key.
fn reached_len(writes: &[Write], key: Key) -> usize
    requires { IsTrue (are_in_order writes.now) }
    ensures within { result ≤ length writes.now }
    ensures parts { IsPartitionPoint (λ w. key_below key w.key ≡ false) (λ w. key_below key w.key ≡ true) writes.now result }
{
    writes.partition_point(|w| is_not_after(w, key))
}

fn is_of_another(w: &Write, line: u64, but: u8) -> bool
    ensures { result ≡ ((w.now.line == line) && not (w.now.key.hart == but)) }
{
    w.line == line && w.key.hart != but
}

fn is_any_of_another(writes: &[Write], line: u64, but: u8) -> bool
    ensures { result ≡ list_any (λ w. (w.line == line) && not (w.key.hart == but)) writes.now }
{
    writes.iter().any(|w| is_of_another(w, line, but))
}

/// Whether another hart than this one writes to the line between two keys.
pub fn is_touched(writes: &[Write], line: u64, from: Key, to: Key, but: u8) -> bool
    requires { IsTrue (are_in_order writes.now) }
    ensures { result ≡ is_touched writes.now line from to but }
{
    let start = reached_len(writes, from);
    let end = earlier_len(writes, to);
    if end <= start {
        return false;
    }
    is_any_of_another(&writes[start..end], line, but)
}

/// How many writes stand before a cycle.
fn cycle_start(writes: &[Write], at: u64) -> usize
    requires { IsTrue (are_in_order writes.now) }
    ensures within { result ≤ length writes.now }
    ensures parts { IsPartitionPoint (λ w. w.key.stamp < at) (λ w. at ≤ w.key.stamp) writes.now result }
{
    writes.partition_point(|w| w.key.stamp < at)
}

/// How many writes stand before the end of a cycle, of which the first stands at `start`.
fn cycle_end(writes: &[Write], start: usize, at: u64) -> usize
    requires in_order { IsTrue (are_in_order writes.now) }
    requires within { start ≤ length writes.now }
    requires earlier { (i : ℕ) (d : Write) → i < start → (slice_index_or writes.now i d).key.stamp < at }
    ensures least { start ≤ result }
    ensures within { result ≤ length writes.now }
    ensures parts { IsPartitionPoint (λ w. w.key.stamp ≤ at) (λ w. at < w.key.stamp) writes.now result }
{
    if start == writes.len() {
        return start;
    }
    if at < writes[start].key.stamp {
        return start;
    }
    start + until_cycle_end(&writes[start..writes.len()], at)
}

fn until_cycle_end(writes: &[Write], at: u64) -> usize
    requires { IsNonDecreasingBy (λ w. w.key.stamp) writes.now }
    ensures within { result ≤ length writes.now }
    ensures parts { IsPartitionPoint (λ w. w.key.stamp ≤ at) (λ w. at < w.key.stamp) writes.now result }
{
    writes.partition_point(|w| w.key.stamp <= at)
}

fn is_up_to_before(w: &Write, key: Key) -> bool
    ensures { result ≡ is_up_to_before key w.now }
{
    w.key.hart < key.hart || (w.key.hart == key.hart && w.key < key)
}

fn is_up_to_own(w: &Write, key: Key) -> bool
    ensures { result ≡ is_up_to_own key w.now }
{
    w.key.hart < key.hart || (w.key.hart == key.hart && w.key <= key)
}

fn before_own_len(writes: &[Write], key: Key) -> usize
    requires { IsPartitionedBy (is_up_to_before key) writes.now }
    ensures within { result ≤ length writes.now }
    ensures parts { IsPartitionPoint (λ w. is_up_to_before key w ≡ true) (λ w. is_up_to_before key w ≡ false) writes.now result }
{
    writes.partition_point(|w| is_up_to_before(w, key))
}

fn through_own_len(writes: &[Write], key: Key) -> usize
    requires { IsPartitionedBy (is_up_to_own key) writes.now }
    ensures within { result ≤ length writes.now }
    ensures parts { IsPartitionPoint (λ w. is_up_to_own key w ≡ true) (λ w. is_up_to_own key w ≡ false) writes.now result }
{
    writes.partition_point(|w| is_up_to_own(w, key))
}

/// The least moment that the record may see in the cycle whose writes stand from `start` to `end`:
/// after the last own write before the record, if the cycle has one, and else at its start.
fn least_visible(writes: &[Write], start: usize, end: usize, key: Key, at: u64) -> usize
    requires in_order { IsTrue (are_in_order writes.now) }
    requires cycle { IsCycle writes.now at start end }
    ensures { result ≡ first_visible writes.now key at }
{
    let place = start + before_own_len(&writes[start..end], key);
    if start < place && writes[place - 1].key.hart == key.hart {
        place
    } else {
        start
    }
}

/// The greatest moment that the record may see in the cycle: before the first own write after the
/// record, if the cycle has one, and else at its end.
fn greatest_visible(writes: &[Write], start: usize, end: usize, key: Key, at: u64) -> usize
    requires in_order { IsTrue (are_in_order writes.now) }
    requires early { at ≤ key.stamp }
    requires cycle { IsCycle writes.now at start end }
    ensures { result ≡ last_visible writes.now key at }
{
    let place = start + through_own_len(&writes[start..end], key);
    if place < end && writes[place].key.hart == key.hart {
        place
    } else {
        end
    }
}

/// The least and the greatest moment that the record may see in a cycle.
pub fn visible_ends(writes: &[Write], key: Key, at: u64) -> (usize, usize)
    requires in_order { IsTrue (are_in_order writes.now) }
    requires early { at ≤ key.stamp }
    ensures visible { AreVisible writes.now key at result.0 result.1 }
    ensures within { result.1 ≤ length writes.now }
{
    let start = cycle_start(writes, at);
    let end = cycle_end(writes, start, at);
    let least = least_visible(writes, start, end, key, at);
    (least, greatest_visible(writes, start, end, key, at))
}
