ghost use Rattle.std.specs.Prelude.{◌≡◌, ◌≤◌, length};
ghost use Rattle.dt_walk.specs.Walk.{CanWalk};

use crate::{allowed, fetch, outcome};
use WalkAnswer::{AccessFault, Page, PageFault};
use dt_record::{Image, Key, Write};
use dt_versions::{Moments, Span};
use dt_walk::{Access, WalkAnswer, WalkArgs};
use std::alloc::{AllocError, Global};
use std::process::Abort;
use std::test::Fail;

/// A write of hart 0 of 8 bytes at a place of a line, the lowest byte first.
fn write(stamp: u64, seq: u32, line: u64, place: usize, value: u64) -> Write
    requires { place ≤ 56 }
{
    let mut bytes = [0; 64];
    bytes[place..place + 8].copy_from_slice(&value.to_le_bytes());
    Write {
        key: Key {
            stamp,
            hart: 0,
            seq,
        },
        line,
        mask: 0xff << place,
        bytes,
    }
}

/// Two bytes of an image, and writes over it.
fn made(
    rt: &impl Abort,
    alloc: Global,
    image: [u8; 2],
    writes: &[Write],
) -> Result<Moments, AllocError> {
    let mut moments = Moments::empty(alloc, Image::of(Vec::from_slice(alloc, &image)?));
    for w in writes {
        assert!(rt; moments.can_add(w));
        moments.add(*w)?;
    }
    Ok(moments)
}

/// A span that ends within the moments.
fn span(rt: &impl Abort, moments: &Moments, ends: (u32, u32)) -> Span
    ensures { result.last ≤ length moments.now.writes }
{
    let (first, last) = ends;
    assert!(rt; last <= moments.count());
    Span { first, last }
}

/// An access by S through three levels of tables from 80002000 on, or with no translation.
fn args(va: u64, on: bool, access: Access) -> WalkArgs
    ensures can_walk { CanWalk result }
    ensures va { result.va ≡ va }
{
    WalkArgs {
        va,
        root: 0x8000_2000,
        on,
        levels: 3,
        access,
        mode: 1,
        sum: false,
        mxr: false,
    }
}

/// The write maps the gigapage at 80000000 to itself.
#[test]
fn a_stale_page_fault_is_allowed(rt: HostRuntime) -> Result<(), Fail> {
    let writes = [write(20, 9, 0x8000_2000, 16, 0x2000_00cf)];
    let moments = made(&rt, rt.alloc(), [0; 2], &writes)?;
    let load = args(0x8000_3000, true, Access::Load);
    for (window, wanted, newest) in [
        ((0, 1), PageFault, Some(0)),
        ((0, 1), Page(0x8000_3000), Some(1)),
        ((1, 1), PageFault, None),
        ((0, 1), AccessFault, None),
        ((1, 0), PageFault, None),
    ] {
        let window = span(&rt, &moments, window);
        let answer = allowed(&moments, window, load, false, wanted);
        assert_eq!(rt; answer, newest, "{wanted:?} in {window:?}");
    }
    Ok(())
}

/// No table is read. Of addresses outside RAM a device's alone can be reached, and not by a fetch
/// or an atomic.
#[test]
fn addresses_outside_ram_fault(rt: HostRuntime) -> Result<(), Fail> {
    let moments = made(&rt, rt.alloc(), [0; 2], &[])?;
    for (va, ram_only, expected) in [
        (0x0000_0000, false, Page(0)),
        (0x7fff_ffff, false, Page(0x7fff_ffff)),
        (0x7fff_ffff, true, AccessFault),
        (0x8000_0000, true, Page(0x8000_0000)),
        (0x83ff_ffff, true, Page(0x83ff_ffff)),
        (0x8400_0000, false, AccessFault),
        (0x8400_0000, true, AccessFault),
        (0xffff_ffff_ffff_ffff, false, AccessFault),
    ] {
        let answer = outcome(&moments, 0, args(va, false, Access::Load), ram_only);
        assert_eq!(rt; answer, expected, "at {va:x}");
    }
    Ok(())
}

/// The image has 2211 at 80000000, and the write makes it 2233.
#[test]
fn halfwords_of_each_moment_are_fetched(rt: HostRuntime) -> Result<(), Fail> {
    let writes = [write(20, 9, 0x8000_0000, 0, 0x2233)];
    let moments = made(&rt, rt.alloc(), [0x11, 0x22], &writes)?;
    for (va, half, window, since, chosen) in [
        (0x8000_0000, 0x2233, (0, 1), (0, 1), Some((1, 1))),
        (0x8000_0000, 0x2211, (0, 1), (0, 1), Some((1, 0))),
        (0x8000_0000, 0x2211, (0, 1), (1, 1), None),
        (0x8000_0000, 0x2233, (0, 0), (0, 1), Some((0, 1))),
        (0x8000_0000, 0x2233, (0, 1), (0, 0), None),
        (0x8000_0000, 0x4433, (0, 1), (0, 1), None),
        (0x8000_0000, 0x2244, (0, 1), (0, 1), None),
        (0x8000_0000, 0x2233, (1, 0), (0, 1), None),
        (0x8000_0000, 0x2233, (0, 1), (1, 0), None),
        (0x83ff_fffe, 0, (0, 1), (0, 1), Some((1, 1))),
        (0x7fff_fffe, 0, (0, 1), (0, 1), None),
        (0x8400_0000, 0, (0, 1), (0, 1), None),
    ] {
        let window = span(&rt, &moments, window);
        let since = span(&rt, &moments, since);
        assert!(rt; va % 2 == 0);
        let answer = fetch(
            &moments,
            window,
            since,
            args(va, false, Access::Fetch),
            half,
        );
        assert_eq!(rt;
            answer,
            chosen,
            "{half:x} at {va:x} in {window:?}, {since:?}"
        );
    }
    Ok(())
}

/// Moment 1 maps the gigapage at 80000000 to itself, and moment 2 puts 1234 at 80003000. Moment 3
/// makes a table at 80001000, which maps the gigapage's first two megabytes to 80200000 and is used
/// from moment 4 on.
#[test]
fn a_page_whose_table_changes_is_fetched(rt: HostRuntime) -> Result<(), Fail> {
    let writes = [
        write(20, 9, 0x8000_2000, 16, 0x2000_00cf),
        write(21, 10, 0x8000_3000, 0, 0x1234),
        write(22, 11, 0x8000_1000, 0, 0x2008_00cf),
        write(23, 12, 0x8000_2000, 16, 0x2000_0401),
    ];
    let moments = made(&rt, rt.alloc(), [0; 2], &writes)?;
    let fetched = args(0x8000_3000, true, Access::Fetch);
    for (half, window, since, chosen) in [
        (0x1234, (0, 4), (0, 4), Some((3, 4))),
        (0x1234, (0, 2), (0, 2), Some((2, 2))),
        (0x1234, (4, 4), (0, 4), None),
        (0x1234, (0, 0), (0, 4), None),
        (0x0000, (0, 4), (0, 4), Some((4, 4))),
        (0x0000, (0, 3), (0, 4), Some((3, 1))),
        (0x0000, (0, 3), (2, 4), None),
    ] {
        let window = span(&rt, &moments, window);
        let since = span(&rt, &moments, since);
        let answer = fetch(&moments, window, since, fetched, half);
        assert_eq!(rt; answer, chosen, "{half:x} in {window:?}, {since:?}");
    }
    Ok(())
}
