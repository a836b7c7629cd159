ghost use Rattle.std.specs.Prelude.{◌≡◌, ◌+◌, ◌%◌, ◌≤◌, ◌<◌, length};
ghost use Rattle.dt_walk.specs.Walk.{CanWalk};

use crate::plain;
use crate::writes::next;
use WalkAnswer::{Page, PageFault};
use dt_record::{Image, Key, RAM_START, Write};
use dt_translate::{allowed, fetch, outcome};
use dt_versions::{Moments, Span};
use dt_walk::{Access, WalkAnswer, WalkArgs};
use std::alloc::{AllocError, Global};
use std::process::Abort;
use std::test::Fail;

/// Entries of one table: none, a gigapage of RAM, and two that point to the table itself.
const ENTRIES: [u64; 4] = [0, 0x2000_00cf, 0x2000_0001, 0x2000_0001];

/// A write of hart 1 of 8 bytes at a place of a line, the lowest byte first.
fn write(stamp: u64, seq: u32, line: u64, place: usize, value: u64) -> Write
    requires { place ≤ 56 }
{
    let mut bytes = [0; 64];
    bytes[place..place + 8].copy_from_slice(&value.to_le_bytes());
    Write {
        key: Key {
            stamp,
            hart: 1,
            seq,
        },
        line,
        mask: 0xff << place,
        bytes,
    }
}

/// Up to a dozen writes of the first four entries of a table, and the same writes as a list.
fn some_tables(alloc: Global, seed: u64) -> Result<(Moments, Vec<Write>), AllocError> {
    let mut moments = Moments::empty(alloc, Image::of(Vec::from_slice(alloc, &[1, 2, 3])?));
    let mut writes = Vec::new(alloc);
    let mut seed = seed;
    for seq in 0..12 {
        seed = next(seed);
        let value = ENTRIES[(seed / 4 % 4) as usize];
        let w = write(20, seq, RAM_START, (seed % 4 * 8) as usize, value);
        if moments.can_add(&w) {
            moments.add(w)?;
            writes.push(w)?;
        }
    }
    Ok((moments, writes))
}

/// An access by S through three levels of tables, or with no translation.
fn args(root: u64, va: u64, on: bool, access: Access) -> WalkArgs
    requires { root % 4096 ≡ 0 }
    ensures can_walk { CanWalk result }
    ensures va { result.va ≡ va }
{
    WalkArgs {
        va,
        root,
        on,
        levels: 3,
        access,
        mode: 1,
        sum: false,
        mxr: false,
    }
}

/// The newest moment of a window whose outcome is the wanted one.
fn plain_allowed(m: &Moments, window: Span, a: WalkArgs, wanted: WalkAnswer) -> Option<u32>
    requires within { window.last ≤ length m.now.writes }
    requires args { CanWalk a }
{
    for k in (window.first..=window.last).rev() {
        if outcome(m, k, a, false) == wanted {
            return Some(k);
        }
    }
    None
}

fn plain_half(writes: &[Write], since: Span, addr: u64, half: u16) -> Option<u32> {
    for k in (since.first..=since.last).rev() {
        let low = plain::byte(writes, k, addr);
        let high = plain::byte(writes, k, addr.wrapping_add(1));
        if u16::from_le_bytes([low, high]) == half {
            return Some(k);
        }
    }
    None
}

/// The newest moment of the window that leads to the halfword, and then the newest that has it.
fn plain_fetch(
    m: &Moments,
    writes: &[Write],
    window: Span,
    since: Span,
    a: WalkArgs,
    half: u16,
) -> Option<(u32, u32)>
    requires within { window.last ≤ length m.now.writes }
    requires args { CanWalk a }
{
    for k in (window.first..=window.last).rev() {
        if let Page(addr) = outcome(m, k, a, true) {
            if let Some(held) = plain_half(writes, since, addr, half) {
                return Some((k, held));
            }
        }
    }
    None
}

/// A span that ends within the moments.
fn span(rt: &impl Abort, moments: &Moments, first: u32, last: u32) -> Span
    ensures { result.last ≤ length moments.now.writes }
{
    assert!(rt; last <= moments.count());
    Span { first, last }
}

/// An even address with small indexes at each level.
fn some_address(seed: u64) -> u64
    ensures { result % 2 ≡ 0 }
{
    let page = (seed % 4) * 0x4000_0000 + (seed / 4 % 4) * 0x20_0000 + (seed / 16 % 4) * 0x1000;
    page + seed / 64 % 16 * 2
}

#[test]
fn translations(rt: HostRuntime) -> Result<(), Fail> {
    for seed in 0..150 {
        let (moments, _) = some_tables(rt.alloc(), next(seed))?;
        let mut seed = next(seed);
        for _ in 0..12 {
            seed = next(seed);
            let last = u32::min((seed / 64 % 13) as u32, moments.count());
            let window = span(&rt, &moments, (seed / 1024 % 13) as u32, last);
            let load = args(RAM_START, some_address(seed), true, Access::Load);
            let wanted = outcome(&moments, window.last, load, false);
            let window = span(&rt, &moments, window.first, moments.count());
            let newest = allowed(&moments, window, load, false, wanted);
            let is_same = newest == plain_allowed(&moments, window, load, wanted);
            assert!(rt; is_same, "seed {seed}");
        }
    }
    Ok(())
}

#[test]
fn fetches(rt: HostRuntime) -> Result<(), Fail> {
    for seed in 0..150 {
        let (moments, writes) = some_tables(rt.alloc(), next(seed))?;
        let mut seed = next(seed);
        for _ in 0..12 {
            seed = next(seed);
            let since = span(&rt, &moments, (seed / 64 % 13) as u32, moments.count());
            let window = span(&rt, &moments, (seed / 1024 % 13) as u32, moments.count());
            let place = RAM_START + seed / 16384 % 32;
            let half = u16::from_le_bytes([
                plain::byte(&writes, window.first, place),
                plain::byte(&writes, window.first, place + 1),
            ]);
            let fetched = args(
                RAM_START,
                some_address(seed),
                seed / 2 % 4 > 0,
                Access::Fetch,
            );
            let chosen = fetch(&moments, window, since, fetched, half);
            let is_same = chosen == plain_fetch(&moments, &writes, window, since, fetched, half);
            assert!(rt; is_same, "seed {seed}");
        }
    }
    Ok(())
}

/// Half a million writes in one cycle: an entry, a byte of another page again and again, and a byte
/// of a third.
pub fn many_writes(rt: &impl Abort, alloc: Global) -> Result<Moments, AllocError> {
    let mut moments = Moments::empty(alloc, Image::of(Vec::new(alloc)));
    for seq in 0..500_000 {
        let w = match seq {
            0 => write(20, seq, 0x8000_2000, 16, 0x2000_00cf),
            499_999 => Write {
                mask: 1,
                ..write(20, seq, 0x8000_3000, 0, 7)
            },
            _ => Write {
                mask: 1,
                ..write(20, seq, 0x8000_1000, 0, 1)
            },
        };
        assert!(rt; moments.can_add(&w));
        moments.add(w)?;
    }
    Ok(moments)
}

#[test]
fn stretches_are_skipped(rt: HostRuntime) -> Result<(), Fail> {
    let moments = many_writes(&rt, rt.alloc())?;
    let all = span(&rt, &moments, 0, 500_000);
    let load = args(0x8000_2000, 0x8000_3000, true, Access::Load);
    let fetched = args(0x8000_2000, 0x8000_2010, false, Access::Fetch);
    for _ in 0..100_000 {
        let newest = allowed(&moments, all, load, false, PageFault);
        assert!(rt; newest == Some(0));
        let chosen = fetch(&moments, all, all, fetched, 0);
        assert!(rt; chosen == Some((500_000, 0)));
    }
    Ok(())
}
