ghost use Rattle.std.specs.Prelude.{◌≡◌, ◌≤◌, ◌<◌, ◌%◌, ◌↔◌, ℕ, All, IfSome, List, option_map, length, filter, find, slice_get, IsTrue};
ghost use Rattle.std.specs.List.{list_all, position_or_len};
ghost use Rattle.std.specs.Option.{option_map_or};
ghost use Rattle.dt_record.specs.Actions.{Held, is_waiting};
ghost use Rattle.dt_record.specs.Keys.{KeyBelow};
ghost use Rattle.dt_record.specs.Writes.{width_mask};
ghost use Rattle.dt_stores.specs.Draining.{is_waiting_on, is_barring, greatest_barrier, mask_over, bytes_over, took, answer_among};
ghost use Rattle.dt_stores.specs.Indexed.{AreAt, rises};
ghost use Rattle.dt_stores.specs.Places.{is_store_place};
ghost use Rattle.dt_stores.specs.Taking.{AreOnLine, put_over, drained_at, drained_one};

use crate::answers::DrainAnswer;
use crate::entries::Entry;
use crate::searches::store_at;
use dt_record::Key;

/// The answer of a drain of so many stores of a line, of which the waiting ones stand at these
/// places, and `first` is the place of the oldest store that waits.
pub fn answer_of(
    entries: &[Entry],
    first: usize,
    waiting: &[u32],
    line: u64,
    count: u16,
) -> DrainAnswer
    requires waiting { AreAt entries.now waiting.now (filter (is_waiting_on line) entries.now) }
    requires first { first ≡ position_or_len is_waiting entries.now }
    requires within { first ≤ length entries.now }
    requires placed { IsTrue (list_all (λ h. is_store_place h.store) entries.now) }
    requires barriers { (high : ℕ) × IsTrue (rises (λ h. h.barrier) 0 high entries.now) }
    ensures { result ≡ answer_among entries.now line count }
{
    if waiting.len() < usize::from(count) {
        return DrainAnswer::Few {
            held: waiting.len() as u32,
        };
    }
    let taken = &waiting[..usize::from(count)];
    match barring(&entries[first..], line, youngest_barrier(entries, taken)) {
        Some(seq) => DrainAnswer::Barred { seq },
        None => merged(entries, taken),
    }
}

/// The barrier number of the youngest of these stores, whose barrier numbers rise, or 0.
fn youngest_barrier(entries: &[Entry], places: &[u32]) -> u32
    ensures { (hs : List Held) (high : ℕ) → AreAt entries.now places.now hs → IsTrue (rises (λ h. h.barrier) 0 high hs)
        → result ≡ greatest_barrier hs }
{
    match places.last() {
        None => 0,
        Some(place) => barrier_at(entries, *place),
    }
}

fn barrier_at(entries: &[Entry], place: u32) -> u32
    ensures { result ≡ option_map_or (λ h. h.barrier) (slice_get entries.now place) 0 }
{
    match store_at(entries, place) {
        None => 0,
        Some(e) => e.barrier(),
    }
}

/// The seq of the oldest store on another line that waits, with a lower barrier number. The
/// barrier numbers of these stores rise.
fn barring(entries: &[Entry], line: u64, barrier: u32) -> Option<u32>
    requires { (low high : ℕ) × IsTrue (rises (λ h. h.barrier) low high entries.now) }
    ensures { result ≡ option_map (λ h. h.store.seq) (find (is_barring line barrier) entries.now) }
{
    for e in entries {
        if barrier <= e.barrier() {
            return None;
        }
        if e.is_barring(line, barrier) {
            return Some(e.seq());
        }
    }
    None
}

/// What a drain writes that takes these stores.
fn merged(entries: &[Entry], places: &[u32]) -> DrainAnswer
    ensures { (line : ℕ) (hs : List Held) → AreAt entries.now places.now hs → AreOnLine line hs → result ≡ took line hs }
{
    DrainAnswer::Took {
        mask: mask_of(entries, places),
        bytes: bytes_of(entries, places),
    }
}

fn mask_of(entries: &[Entry], places: &[u32]) -> u64
    ensures { (line : ℕ) (hs : List Held) → AreAt entries.now places.now hs → AreOnLine line hs → result ≡ mask_over line hs }
{
    let mut mask = 0;
    for place in places {
        mask |= mask_at(entries, *place);
    }
    mask
}

/// The mask of the store at a place, or 0.
fn mask_at(entries: &[Entry], place: u32) -> u64
    ensures { result ≡ option_map_or (λ h. width_mask (h.store.addr % 64) h.store.width) (slice_get entries.now place) 0 }
{
    match store_at(entries, place) {
        None => 0,
        Some(e) => e.mask(),
    }
}

fn bytes_of(entries: &[Entry], places: &[u32]) -> [u8; 64]
    ensures { (line : ℕ) (hs : List Held) → AreAt entries.now places.now hs → AreOnLine line hs → result ≡ bytes_over line hs }
{
    let mut bytes = [0; 64];
    for place in places {
        put_at(&mut bytes, entries, *place);
    }
    bytes
}

/// Puts the bytes of the store at a place over those of its line.
fn put_at(bytes: &mut [u8], entries: &[Entry], place: u32)
    requires { length bytes.old ≡ 64 }
    ensures { bytes.new ≡ option_map_or (λ h. put_over bytes.old h.store) (slice_get entries.now place) bytes.old }
{
    if let Some(e) = store_at(entries, place) {
        e.put_over(bytes);
    }
}

/// Whether the drains that have taken some of these stores have keys below this one.
pub fn are_drained_before(entries: &[Entry], key: Key) -> bool
    ensures { IsTrue result ↔ All (λ h. IfSome h.drained (λ k. KeyBelow k key)) entries.now }
{
    for e in entries {
        if !e.is_drained_before(key) {
            return false;
        }
    }
    true
}

/// The place of the oldest store that waits, where none before this place does.
pub fn first_waiting(entries: &[Entry], from: usize) -> usize
    requires { from ≤ position_or_len is_waiting entries.now }
    ensures { result ≡ position_or_len is_waiting entries.now }
{
    let mut first = from;
    while first < entries.len() {
        if entries[first].is_waiting() {
            return first;
        }
        first += 1;
    }
    first
}

/// Notes the drain that has taken the stores at these places, or that none has.
pub fn set_drained(entries: &mut [Entry], places: &[u32], drain: Option<Key>)
    ensures { entries.new ≡ drained_at drain places.now entries.old }
{
    for place in places {
        set_drained_at(entries, *place as usize, drain);
    }
}

fn set_drained_at(entries: &mut [Entry], place: usize, drain: Option<Key>)
    ensures { entries.new ≡ drained_one drain place entries.old }
{
    if place < entries.len() {
        let e = &mut entries[place];
        e.set_drained(drain);
    }
}
