ghost use Rattle.std.specs.Prelude.{◌≡◌, ℕ, false, not, if◌then◌else◌, Some, None, List, option_map, find, reverse, slice_get, IsTrue};
ghost use Rattle.std.specs.List.{take_while, position_or_len};
ghost use Rattle.std.specs.Option.{option_copied, option_map_or, option_and_then};
ghost use Rattle.dt_record.specs.Actions.{Held, store_covers, is_undrained};
ghost use Rattle.dt_stores.specs.Draining.{forward_of};
ghost use Rattle.dt_stores.specs.Oldest.{is_asked};
ghost use Rattle.dt_stores.specs.Indexed.{AreAt, are_split, youngest_over, oldest_seq, oldest_place};

use crate::answers::{Forward, Which};
use crate::entries::Entry;

/// The store at a place.
pub fn store_at(entries: &[Entry], place: u32) -> Option<&Entry>
    ensures { option_copied result ≡ slice_get entries.now place }
{
    entries.get(place as usize)
}

/// One of the stores at these places.
fn store_among<'a>(entries: &'a [Entry], places: &[u32], i: usize) -> Option<&'a Entry>
    ensures { (hs : List Held) → AreAt entries.now places.now hs → option_copied result ≡ slice_get hs i }
{
    match place_at(places, i) {
        None => None,
        Some(place) => store_at(entries, place),
    }
}

fn place_at(places: &[u32], i: usize) -> Option<u32>
    ensures { result ≡ slice_get places.now i }
{
    places.get(i).copied()
}

/// What a load has for a byte from the youngest of these stores that covers it, where no drain by
/// the cycle has taken that.
pub fn forward_from(entries: &[Entry], places: &[u32], addr: u64, at: u64) -> Option<Forward>
    ensures { (hs : List Held) → AreAt entries.now places.now hs → result ≡ option_map (forward_of addr) (youngest_over addr at hs) }
{
    for i in 0..places.len() {
        let e = store_among(entries, places, places.len() - 1 - i)?;
        if !e.is_undrained(at) {
            return None;
        }
        if e.covers(addr) {
            return Some(e.forward(addr));
        }
    }
    None
}

/// The seq of the oldest of these stores, of which drains take the oldest first, that no drain by
/// the cycle has taken.
pub fn oldest_from(entries: &[Entry], places: &[u32], at: u64) -> Option<u32>
    ensures { (hs : List Held) (n : ℕ) → AreAt entries.now places.now hs → IsTrue (are_split at n hs) → result ≡ oldest_seq at hs }
{
    match store_among(entries, places, first_undrained(entries, places, at)) {
        None => None,
        Some(e) => Some(e.seq()),
    }
}

fn first_undrained(entries: &[Entry], places: &[u32], at: u64) -> usize
    ensures { (hs : List Held) (n : ℕ) → AreAt entries.now places.now hs → IsTrue (are_split at n hs) → result ≡ oldest_place at hs }
{
    places.partition_point(|place| is_drained_at(entries, *place, at))
}

fn is_drained_at(entries: &[Entry], place: u32, at: u64) -> bool
    ensures { result ≡ option_map_or (λ h. not (is_undrained at h)) (slice_get entries.now place) false }
{
    match store_at(entries, place) {
        Some(e) => !e.is_undrained(at),
        None => false,
    }
}

/// The seq of the store at a place, where it is asked about.
pub fn asked_at(entries: &[Entry], place: usize, ww: u32, wr: u32, which: Which) -> Option<u32>
    ensures { result ≡ option_and_then (λ h. if is_asked ww wr which h then Some h.store.seq else None) (slice_get entries.now place) }
{
    match entries.get(place) {
        Some(e) if e.is_asked(ww, wr, which) => Some(e.seq()),
        _ => None,
    }
}
