use crate::runs::{Event, load_at, store_at};
use dt_record::{Key, Write};
use dt_sources::{LoadAsk, Origin};
use dt_stores::OwnStore;

/// Moments for the first three loads.
pub type Moments = [usize; 3];

/// The earliest moments at which the first loads may read, of all assignments that fit.
pub fn least(events: &[Event], writes: &[Write], loads: usize) -> Option<Moments> {
    let base = writes.len().min(9) + 1;
    let total = match loads {
        1 => base,
        2 => base * base,
        _ => base * base * base,
    };
    let mut best = None;
    for n in 0..total {
        let moments = [n % base, n / base % base, n / base / base];
        if is_fit(events, writes, &moments, loads) {
            best = Some(earlier(best, moments));
        }
    }
    best
}

fn earlier(best: Option<Moments>, moments: Moments) -> Moments {
    let old = best.unwrap_or(moments);
    [
        old[0].min(moments[0]),
        old[1].min(moments[1]),
        old[2].min(moments[2]),
    ]
}

fn is_fit(events: &[Event], writes: &[Write], moments: &Moments, loads: usize) -> bool {
    let mut n = 0;
    for (i, event) in events.iter().enumerate() {
        if let Event::Load {
            place,
            key,
            early,
            raw,
        } = event
        {
            if n < loads && n < 3 {
                let ask = load_at(*place, *key, *early, *raw);
                if !is_load_fit(&events[..i], writes, moments, moments[n], ask) {
                    return false;
                }
                n += 1;
            }
        }
    }
    true
}

fn is_load_fit(
    before: &[Event],
    writes: &[Write],
    moments: &Moments,
    k: usize,
    ask: LoadAsk,
) -> bool {
    let two = ask.width == 2;
    is_visible(writes, ask.key, ask.at, k)
        && is_byte_fit(before, writes, moments, k, ask, false)
        && (!two || is_byte_fit(before, writes, moments, k, ask, true))
}

fn is_visible(writes: &[Write], key: Key, at: u64, k: usize) -> bool {
    for (i, w) in writes.iter().enumerate() {
        let own = w.key.hart == key.hart;
        let due = w.key.stamp < at || (own && w.key < key && w.key.stamp <= at);
        let hidden = w.key.stamp > at || (own && w.key > key);
        if (i < k && hidden) || (i >= k && due) {
            return false;
        }
    }
    true
}

/// Whether the first byte of a load fits, or its second one.
fn is_byte_fit(
    before: &[Event],
    writes: &[Write],
    moments: &Moments,
    k: usize,
    ask: LoadAsk,
    second: bool,
) -> bool {
    let (addr, wanted) = if second {
        (0x8000_0001, ask.raw / 256)
    } else {
        (ask.addr, ask.raw % 256)
    };
    let (origin, byte) = source(before, writes, k, ask.at, addr);
    let own = standing(before, origin, addr);
    byte == wanted
        && keeps_reads(before, writes, moments, addr, own)
        && keeps_writes(writes, ask.key, addr, own)
}

fn keeps_reads(before: &[Event], writes: &[Write], moments: &Moments, addr: u64, own: u64) -> bool {
    let mut n = 0;
    for (i, event) in before.iter().enumerate() {
        if let Event::Load {
            place,
            key,
            early,
            raw,
        } = event
        {
            if n < 3 {
                let ask = load_at(*place, *key, *early, *raw);
                let (origin, _) = source(&before[..i], writes, moments[n], ask.at, addr);
                if has_byte(ask, addr) && standing(before, origin, addr) > own {
                    return false;
                }
                n += 1;
            }
        }
    }
    true
}

fn has_byte(ask: LoadAsk, addr: u64) -> bool {
    ask.addr == addr || (ask.width == 2 && addr == 0x8000_0001)
}

fn keeps_writes(writes: &[Write], key: Key, addr: u64, own: u64) -> bool {
    writes.iter().all(|w| {
        w.key.hart != key.hart || w.key >= key || !is_covering(w, addr) || standing_of(w.key) <= own
    })
}

fn is_covering(w: &Write, addr: u64) -> bool {
    let place = addr % 64;
    w.line == addr - place && (w.mask >> place) % 2 == 1
}

/// Where a byte comes from in a cycle at a moment, and the byte.
fn source(before: &[Event], writes: &[Write], k: usize, at: u64, addr: u64) -> (Origin, u64) {
    if let Some(s) = own_source(before, at, addr) {
        let byte = if addr == s.addr {
            s.value % 256
        } else {
            s.value / 256
        };
        return (Origin::Store(s.seq), byte);
    }
    match writes[..k.min(writes.len())]
        .iter()
        .rev()
        .find(|w| is_covering(w, addr))
    {
        Some(w) => (
            Origin::Write(w.key),
            u64::from(w.bytes[(addr % 64) as usize]),
        ),
        None => (Origin::Image, 0),
    }
}

/// The youngest store on the byte that still waits after the cycle.
fn own_source(before: &[Event], at: u64, addr: u64) -> Option<OwnStore> {
    let mut found = None;
    for event in before {
        if let Event::Store { place, seq, value } = event {
            let s = store_at(*place, *seq, *value);
            let covering = s.addr == addr || (s.width == 2 && addr == 0x8000_0001);
            if covering && is_waiting(taker(before, *seq, *place > 2), at) {
                found = Some(s);
            }
        }
    }
    found
}

fn is_waiting(taker: Option<Key>, at: u64) -> bool {
    match taker {
        Some(key) => key.stamp > at,
        None => true,
    }
}

/// The drain that takes the store with this number, on the next line or not.
fn taker(before: &[Event], seq: u32, next: bool) -> Option<Key> {
    let number = number_on_line(before, seq, next);
    let mut taken = 0_u32;
    for event in before {
        if let Event::Drain {
            key,
            next: on,
            count,
            ..
        } = event
        {
            if *on == next {
                taken = taken.saturating_add(u32::from(*count));
                if taken >= number {
                    return Some(*key);
                }
            }
        }
    }
    None
}

/// How many stores of the line there are up to this one.
fn number_on_line(before: &[Event], seq: u32, next: bool) -> u32 {
    let mut number = 0_u32;
    for event in before {
        if let Event::Store {
            place,
            seq: other,
            ..
        } = event
        {
            if (*place > 2) == next && *other <= seq {
                number = number.saturating_add(1);
            }
        }
    }
    number
}

/// Where a source stands: 0 for the image, the greatest number for a store that no drain has taken.
fn standing(before: &[Event], origin: Origin, addr: u64) -> u64 {
    match origin {
        Origin::Image => 0,
        Origin::Write(key) => standing_of(key),
        Origin::Store(seq) => match taker(before, seq, addr >= 0x8000_0040) {
            Some(key) => standing_of(key),
            None => u64::MAX,
        },
    }
}

fn standing_of(key: Key) -> u64 {
    1 + (key.stamp % 1000) * 10000 + u64::from(key.hart) * 1000 + u64::from(key.seq % 1000)
}
