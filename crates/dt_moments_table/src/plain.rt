//! The plain searches.
use dt_record::{Key, RAM_START, Write};
use dt_versions::Span;

fn covers(w: &Write, addr: u64) -> bool {
    w.line == addr - addr % 64 && (w.mask >> (addr % 64)) & 1 == 1
}

/// The last of the first k writes that covers the byte.
fn last_cover(writes: &[Write], k: u32, addr: u64) -> Option<Write> {
    let mut last = None;
    let mut moment = 0u32;
    for w in writes {
        moment = moment.wrapping_add(1);
        if moment <= k && covers(w, addr) {
            last = Some(*w);
        }
    }
    last
}

/// The image's first bytes are 1, 2 and 3.
fn image_byte(addr: u64) -> u8 {
    match addr.wrapping_sub(RAM_START) {
        0 => 1,
        1 => 2,
        2 => 3,
        _ => 0,
    }
}

/// The byte after the first k writes.
pub fn byte(writes: &[Write], k: u32, addr: u64) -> u8 {
    match last_cover(writes, k, addr) {
        Some(w) => w.bytes[(addr % 64) as usize],
        None => image_byte(addr),
    }
}

/// The key of the write that it comes from.
pub fn source(writes: &[Write], k: u32, addr: u64) -> Option<Key> {
    match last_cover(writes, k, addr) {
        Some(w) => Some(w.key),
        None => None,
    }
}

fn covers_word(w: &Write, addr: u64) -> bool {
    let start = addr - addr % 8;
    for place in 0..8 {
        if covers(w, start.wrapping_add(place)) {
            return true;
        }
    }
    false
}

/// The moment since which the word stands at moment k.
pub fn steady_from(writes: &[Write], k: u32, addr: u64) -> u32 {
    let mut from = 0;
    let mut moment = 0u32;
    for w in writes {
        moment = moment.wrapping_add(1);
        if moment <= k && covers_word(w, addr) {
            from = moment;
        }
    }
    from
}

/// The first moment after moment k at which it changes.
pub fn next_change(writes: &[Write], k: u32, addr: u64) -> Option<u32> {
    let mut moment = 0u32;
    for w in writes {
        moment = moment.wrapping_add(1);
        if k < moment && covers_word(w, addr) {
            return Some(moment);
        }
    }
    None
}

/// How many writes have a key below this one.
pub fn count_below(writes: &[Write], key: Key) -> u32 {
    let mut count = 0u32;
    for w in writes {
        if w.key < key {
            count = count.wrapping_add(1);
        }
    }
    count
}

/// Whether another hart writes to the line between two keys.
pub fn touched(writes: &[Write], line: u64, from: Key, to: Key, but: u8) -> bool {
    for w in writes {
        if w.line == line && w.key.hart != but && from < w.key && w.key < to {
            return true;
        }
    }
    false
}

/// Whether the record has to see the write in a cycle.
fn is_due(w: &Write, key: Key, at: u64) -> bool {
    w.key.stamp < at || (w.key.hart == key.hart && w.key < key && w.key.stamp <= at)
}

/// Whether the record cannot see the write in a cycle.
fn is_hidden(w: &Write, key: Key, at: u64) -> bool {
    at < w.key.stamp || (w.key.hart == key.hart && key < w.key)
}

/// From the last write that has to be seen to the first that cannot be.
pub fn visible(writes: &[Write], key: Key, at: u64) -> Span {
    let mut first = 0;
    let mut last = 0u32;
    let mut is_open = true;
    let mut moment = 0u32;
    for w in writes {
        is_open = is_open && !is_hidden(w, key, at);
        moment = moment.wrapping_add(1);
        if is_open {
            last = moment;
        }
        if is_due(w, key, at) {
            first = moment;
        }
    }
    Span { first, last }
}
