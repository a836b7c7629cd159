//! Random runs, of which each step goes to the store buffer and to the plain list.
ghost use Rattle.std.specs.Prelude.{◌≡◌, ◌+◌, ◌<◌, ◌≤◌};
ghost use Rattle.dt_record.specs.declared.limits.TheConstants.{RECORD_LIMIT};
ghost use Rattle.dt_stores.specs.Marks.{KeepsMarks};
ghost use Rattle.dt_stores.specs.Places.{is_store_place};

use crate::plain;
use crate::plain::Plain;
use dt_record::{Key, RAM_START, is_in_ram};
use dt_stores::{OwnStore, Stores, Which};
use std::alloc::{AllocError, Global};

/// The number that follows another in a sequence without a pattern.
pub fn next(seed: u64) -> u64 {
    let mixed = seed
        .wrapping_mul(0x5851_f42d_4c95_7f2d)
        .wrapping_add(0x1405_7b7e_f767_814f);
    mixed ^ (mixed >> 29)
}

/// One of two lines.
fn some_line(seed: u64) -> u64 {
    RAM_START + 64 * (seed % 2)
}

fn is_place(s: &OwnStore) -> bool
    ensures { result ≡ is_store_place s.now }
{
    (s.width == 1 || (s.width == 2 || (s.width == 4 || s.width == 8)))
        && (s.addr % u64::from(s.width) == 0 && is_in_ram(s.addr))
}

/// A store to the first bytes of one of two lines.
fn some_store(seed: u64, seq: u32) -> OwnStore {
    let width = match seed / 2 % 4 {
        0 => 1,
        1 => 2,
        2 => 4,
        _ => 8,
    };
    let place = seed / 8 % 12;
    OwnStore {
        seq,
        addr: some_line(seed).wrapping_add(place - place % u64::from(width)),
        width,
        value: next(seed),
    }
}

/// Whether all that can be asked has the answers of the plain searches.
fn is_same(alloc: Global, stores: &Stores, plain: &Plain, at: u64) -> Result<bool, AllocError> {
    let mut same = true;
    for line in [RAM_START, RAM_START + 64, RAM_START + 128] {
        for count in 0..4 {
            let answer = plain::would_drain(alloc, plain, line, count)?;
            same = same && stores.would_drain(line, count) == answer;
        }
        for place in [0, 1, 2, 3, 5, 7, 8, 11, 12] {
            let addr = line + place;
            same = same && stores.forward(addr, at) == plain::forward(plain, addr, at);
        }
        let which = Which::Line(line);
        same = same && stores.oldest(which, at) == plain::oldest(plain, which, at);
    }
    for which in [Which::All, Which::BeforeWr, Which::BeforeWw] {
        same = same && stores.oldest(which, at) == plain::oldest(plain, which, at);
    }
    Ok(same)
}

/// Whether all answers are the same in each of the first cycles.
pub fn are_same(alloc: Global, stores: &Stores, plain: &Plain) -> Result<bool, AllocError> {
    let mut same = true;
    for at in 0..30 {
        same = same && is_same(alloc, stores, plain, at)?;
    }
    Ok(same)
}

/// A store, a fence or a drain.
fn step(stores: &mut Stores, plain: &mut Plain, seed: u64, key: Key) -> Result<(), AllocError>
    requires { (stores.old.ww < RECORD_LIMIT) × (stores.old.wr < RECORD_LIMIT) }
    ensures marks { KeepsMarks stores.old stores.new }
    ensures ww { stores.new.ww ≤ stores.old.ww + 1 }
    ensures wr { stores.new.wr ≤ stores.old.wr + 1 }
{
    match seed / 64 % 8 {
        0 => {
            let ww = seed % 2 == 0;
            let wr = seed / 2 % 2 == 0;
            stores.fence(ww, wr);
            plain::fence(plain, ww, wr);
            Ok(())
        }
        1..=3 => drain(stores, plain, seed, key),
        _ => commit(stores, plain, some_store(seed, key.seq)),
    }
}

fn commit(stores: &mut Stores, plain: &mut Plain, s: OwnStore) -> Result<(), AllocError>
    ensures marks { KeepsMarks stores.old stores.new }
    ensures fences { (stores.new.ww ≡ stores.old.ww) × (stores.new.wr ≡ stores.old.wr) }
{
    if is_place(&s) {
        stores.commit(s)?;
        plain::commit(plain, s)?;
    }
    Ok(())
}

fn drain(stores: &mut Stores, plain: &mut Plain, seed: u64, key: Key) -> Result<(), AllocError>
    ensures marks { KeepsMarks stores.old stores.new }
    ensures fences { (stores.new.ww ≡ stores.old.ww) × (stores.new.wr ≡ stores.old.wr) }
{
    if stores.can_drain(key) {
        let line = some_line(seed);
        let count = (seed / 4 % 3) as u16;
        if stores.drain(key, line, count).is_taking() {
            plain::drain(plain, key, line, count);
        }
    }
    Ok(())
}

/// Ten steps, of which the first is in the cycle after this one, and whether all answers were the
/// same after each.
pub fn go_on(
    alloc: Global,
    stores: &mut Stores,
    plain: &mut Plain,
    seed: u64,
    stamp: u64,
) -> Result<bool, AllocError>
    requires { (stores.old.ww < 1000) × (stores.old.wr < 1000) }
    ensures marks { KeepsMarks stores.old stores.new }
    ensures ww { stores.new.ww ≤ stores.old.ww + 10 }
    ensures wr { stores.new.wr ≤ stores.old.wr + 10 }
{
    let mut same = true;
    let mut seed = seed;
    let mut stamp = stamp;
    for seq in 0..10 {
        seed = next(seed);
        stamp = stamp.wrapping_add(seed / 1024 % 2);
        let hart = 0;
        step(stores, plain, seed, Key { stamp, hart, seq })?;
        for back in 0..4 {
            let at = stamp.wrapping_sub(back);
            same = same && is_same(alloc, stores, plain, at)?;
        }
    }
    Ok(same)
}
