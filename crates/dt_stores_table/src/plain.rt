//! The plain searches, through the list of all stores.
use dt_record::Key;
use dt_stores::{DrainAnswer, Forward, OwnStore, Which};
use std::alloc::{AllocError, Global};

/// A store, the numbers of fences before it, and the drain that has taken it.
#[derive(Clone, Copy, Debug)]
pub struct PlainStore {
    store: OwnStore,
    barrier: u32,
    readers: u32,
    drained: Option<Key>,
}

/// All stores of a hart, and the numbers of its fences.
#[derive(Debug, Drop)]
pub struct Plain {
    stores: Vec<PlainStore>,
    ww: u32,
    wr: u32,
}

pub fn new(alloc: Global) -> Plain {
    Plain {
        stores: Vec::new(alloc),
        ww: 0,
        wr: 0,
    }
}

pub fn copy(alloc: Global, plain: &Plain) -> Result<Plain, AllocError> {
    let stores = Vec::from_slice(alloc, &plain.stores)?;
    let ww = plain.ww;
    let wr = plain.wr;
    Ok(Plain { stores, ww, wr })
}

pub fn commit(plain: &mut Plain, store: OwnStore) -> Result<(), AllocError> {
    let barrier = plain.ww;
    let readers = plain.wr;
    plain.stores.push(PlainStore {
        store,
        barrier,
        readers,
        drained: None,
    })?;
    Ok(())
}

pub fn fence(plain: &mut Plain, ww: bool, wr: bool) {
    plain.ww = plain.ww.wrapping_add(u32::from(ww));
    plain.wr = plain.wr.wrapping_add(u32::from(wr));
}

/// Gives the first so many stores that wait on the line the drain's key.
pub fn drain(plain: &mut Plain, key: Key, line: u64, count: u16) {
    let mut left = count;
    for i in 0..plain.stores.len() {
        if i < plain.stores.len() && left > 0 && is_waiting_on(&plain.stores[i], line) {
            plain.stores[i].drained = Some(key);
            left -= 1;
        }
    }
}

fn is_on(s: &PlainStore, line: u64) -> bool {
    s.store.addr - s.store.addr % 64 == line
}

fn is_waiting_on(s: &PlainStore, line: u64) -> bool {
    s.drained.is_none() && is_on(s, line)
}

fn is_undrained(s: &PlainStore, at: u64) -> bool {
    match s.drained {
        None => true,
        Some(key) => at < key.stamp,
    }
}

fn covers(s: &PlainStore, addr: u64) -> bool {
    s.store.addr <= addr && addr - s.store.addr < u64::from(s.store.width)
}

fn byte(s: &PlainStore, addr: u64) -> u8 {
    let place = addr.wrapping_sub(s.store.addr) % 8;
    ((s.store.value >> (8 * place)) % 256) as u8
}

/// The youngest store that covers the byte and is undrained in the cycle.
pub fn forward(plain: &Plain, addr: u64, at: u64) -> Option<Forward> {
    let mut found = None;
    for s in &plain.stores {
        if covers(s, addr) && is_undrained(s, at) {
            found = Some(Forward {
                seq: s.store.seq,
                byte: byte(s, addr),
                drained: s.drained,
            });
        }
    }
    found
}

fn is_asked(s: &PlainStore, plain: &Plain, which: Which) -> bool {
    match which {
        Which::All => true,
        Which::Line(line) => is_on(s, line),
        Which::BeforeWr => s.readers < plain.wr,
        Which::BeforeWw => s.barrier < plain.ww,
    }
}

/// The first store that is asked about and undrained in the cycle.
pub fn oldest(plain: &Plain, which: Which, at: u64) -> Option<u32> {
    for s in &plain.stores {
        if is_asked(s, plain, which) && is_undrained(s, at) {
            return Some(s.store.seq);
        }
    }
    None
}

/// The first so many stores that wait on the line.
fn taken(
    alloc: Global,
    plain: &Plain,
    line: u64,
    count: u16,
) -> Result<Vec<PlainStore>, AllocError> {
    let mut taken = Vec::new(alloc);
    for s in &plain.stores {
        if is_waiting_on(s, line) && taken.len() < usize::from(count) {
            taken.push(*s)?;
        }
    }
    Ok(taken)
}

/// What a drain of so many stores of the line answers.
pub fn would_drain(
    alloc: Global,
    plain: &Plain,
    line: u64,
    count: u16,
) -> Result<DrainAnswer, AllocError> {
    let taken = taken(alloc, plain, line, count)?;
    if taken.len() < usize::from(count) {
        return Ok(DrainAnswer::Few {
            held: (taken.len() % 65536) as u32,
        });
    }
    match barring(plain, line, barrier(&taken)) {
        Some(seq) => Ok(DrainAnswer::Barred { seq }),
        None => Ok(merged(&taken)),
    }
}

/// The barrier number of the last store, or 0.
fn barrier(taken: &[PlainStore]) -> u32 {
    let mut barrier = 0;
    for s in taken {
        barrier = s.barrier;
    }
    barrier
}

/// The first store of another line that waits, with a lower barrier number.
fn barring(plain: &Plain, line: u64, barrier: u32) -> Option<u32> {
    for s in &plain.stores {
        if s.drained.is_none() && !is_on(s, line) && s.barrier < barrier {
            return Some(s.store.seq);
        }
    }
    None
}

/// What the stores write: each byte is that of the youngest that covers it.
fn merged(taken: &[PlainStore]) -> DrainAnswer {
    let mut mask = 0;
    let mut bytes = [0; 64];
    for s in taken {
        for i in 0..64 {
            let addr = (s.store.addr - s.store.addr % 64).wrapping_add(i);
            if covers(s, addr) {
                mask |= 1 << i;
                bytes[i as usize] = byte(s, addr);
            }
        }
    }
    DrainAnswer::Took { mask, bytes }
}
