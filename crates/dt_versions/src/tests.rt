use crate::{Moments, Span, steady_words_stay};
use dt_record::{Image, Key, RAM_END, RAM_START, Write};
use std::alloc::{AllocError, Global};
use std::process::Abort;
use std::test::Fail;

fn key(stamp: u64, hart: u8, seq: u32) -> Key {
    Key { stamp, hart, seq }
}

fn write(key: Key, line: u64, mask: u64, byte: u8) -> Write {
    Write {
        key,
        line,
        mask,
        bytes: [byte; 64],
    }
}

/// Harts 0 and 1 write to the first line in cycle 10, and hart 0 to the second in cycle 12.
fn made(rt: &impl Abort, alloc: Global) -> Result<Moments, AllocError> {
    let writes = [
        write(key(10, 0, 5), 0x8000_0000, 1, 7),
        write(key(10, 1, 2), 0x8000_0000, 3, 8),
        write(key(12, 0, 6), 0x8000_0040, 1, 9),
    ];
    let base = Image::of(Vec::from_slice(alloc, &[0x11, 0x22])?);
    let mut moments = Moments::empty(alloc, base);
    for w in &writes {
        assert!(rt; moments.can_add(w));
        moments.add(*w)?;
    }
    Ok(moments)
}

/// The byte and its source, where there is such a moment and such an address.
fn found(moments: &Moments, k: u32, addr: u64) -> Option<(u8, Option<Key>)> {
    if k <= moments.count() && RAM_START <= addr && addr < RAM_END {
        Some((moments.byte(k, addr), moments.source(k, addr)))
    } else {
        None
    }
}

#[test]
fn moments_hold_bytes_and_sources(rt: HostRuntime) -> Result<(), Fail> {
    let moments = made(&rt, rt.alloc())?;
    assert_eq!(rt; moments.count(), 3);
    for (k, addr, byte, source) in [
        (0, 0x8000_0000, 0x11, None),
        (1, 0x8000_0000, 7, Some(key(10, 0, 5))),
        (2, 0x8000_0000, 8, Some(key(10, 1, 2))),
        (1, 0x8000_0001, 0x22, None),
        (2, 0x8000_0001, 8, Some(key(10, 1, 2))),
        (2, 0x8000_0040, 0, None),
        (3, 0x8000_0040, 9, Some(key(12, 0, 6))),
        (3, 0x83ff_ffff, 0, None),
    ] {
        assert_eq!(rt;
            found(&moments, k, addr),
            Some((byte, source)),
            "moment {k}, {addr:x}"
        );
    }
    for (below, count) in [
        (key(10, 0, 5), 0),
        (key(10, 1, 2), 1),
        (key(10, 1, 3), 2),
        (key(13, 0, 0), 3),
    ] {
        assert_eq!(rt; moments.count_below(below), count);
    }
    for refused in [
        write(key(12, 0, 6), 0x8000_0000, 1, 0),
        write(key(13, 0, 7), 0x8000_0001, 1, 0),
        write(key(13, 0, 7), 0x8400_0000, 1, 0),
    ] {
        assert!(rt; !moments.can_add(&refused));
    }
    Ok(())
}

#[test]
fn records_see_moments(rt: HostRuntime) -> Result<(), Fail> {
    let moments = made(&rt, rt.alloc())?;
    for (reader, at, first, last) in [
        // Another hart's write of that very cycle may go either way.
        (key(10, 2, 0), 10, 0, 2),
        (key(12, 2, 0), 12, 2, 3),
        (key(12, 2, 0), 11, 2, 2),
        (key(12, 2, 0), 9, 0, 0),
        // An own write of the cycle is seen from the records after it alone.
        (key(10, 1, 3), 10, 2, 2),
        (key(10, 1, 1), 10, 0, 1),
        (key(10, 1, 3), 9, 0, 0),
        // The record's own write is neither before nor after it.
        (key(10, 0, 5), 10, 0, 2),
    ] {
        assert!(rt; at <= reader.stamp);
        assert_eq!(rt;
            moments.visible(reader, at),
            Span { first, last },
            "at {at} from {reader:?}"
        );
    }
    Ok(())
}

#[test]
fn lines_are_touched_by_other_harts(rt: HostRuntime) -> Result<(), Fail> {
    let moments = made(&rt, rt.alloc())?;
    for (line, from, to, but, touched) in [
        (0x8000_0000, key(9, 0, 0), key(11, 0, 0), 0, true),
        (0x8000_0000, key(9, 0, 0), key(11, 0, 0), 1, true),
        (0x8000_0000, key(10, 0, 5), key(11, 0, 0), 1, false),
        (0x8000_0000, key(9, 0, 0), key(10, 1, 2), 0, false),
        (0x8000_0040, key(9, 0, 0), key(11, 0, 0), 1, false),
        (0x8000_0040, key(9, 0, 0), key(13, 0, 0), 0, false),
        (0x8000_0040, key(9, 0, 0), key(13, 0, 0), 1, true),
    ] {
        assert_eq!(rt;
            moments.touched(line, from, to, but),
            touched,
            "{line:x} but hart {but}"
        );
    }
    Ok(())
}

#[test]
fn words_stay_until_they_change(rt: HostRuntime) -> Result<(), Fail> {
    steady_words_stay();
    let moments = made(&rt, rt.alloc())?;
    for (k, addr, from, next, value) in [
        (0, 0x8000_0000, 0, Some(1), 0x2211),
        (1, 0x8000_0007, 1, Some(2), 0x2207),
        (2, 0x8000_0003, 2, None, 0x0808),
        (3, 0x8000_0000, 2, None, 0x0808),
        (3, 0x8000_0008, 0, None, 0),
        (0, 0x8000_0044, 0, Some(3), 0),
        (3, 0x8000_0040, 3, None, 9),
    ] {
        assert!(rt; k <= moments.count());
        assert!(rt; RAM_START <= addr && addr < RAM_END);
        assert_eq!(rt; moments.steady_from(k, addr), from, "moment {k}, {addr:x}");
        assert_eq!(rt; moments.next_change(k, addr), next, "moment {k}, {addr:x}");
        assert_eq!(rt;
            moments.word(k, addr - addr % 8),
            value,
            "moment {k}, {addr:x}"
        );
    }
    Ok(())
}
