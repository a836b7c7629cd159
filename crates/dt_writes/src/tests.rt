use crate::{moments_of, moments_over};
use dt_record::{Body, Image, Key, Record, Retire, Write};
use dt_versions::Moments;
use std::test::Fail;

/// An atomic that writes this number to the eight bytes at 0x80000100.
macro_rules! atomic {
    ($new:literal) => {
        Body::Atomic {
            retire: Retire {
                pc: 0x8000_0000,
                bits: 0x1875_362f,
                value: 0,
            },
            paddr: 0x8000_0100,
            width: 8,
            wrote: true,
            new: $new,
        }
    };
}

/// Records by stamp, hart and body.
macro_rules! records {
    ($(($stamp:literal, $hart:literal, $body:expr)),+) => {
        [$(Record { stamp: $stamp, hart: $hart, body: $body }),+]
    };
}

/// Hart 1's write stands first in the file and last in the order of keys.
const RECORDS: [Record; 4] = records![
    (12, 1, atomic!(9)),
    (1, 0, Body::Beat),
    (10, 0, atomic!(7)),
    (12, 0, atomic!(8))
];

/// The byte at 0x80000100 and its source, where there is such a moment.
fn found(moments: &Moments, k: u32) -> Option<(u8, Option<Key>)> {
    if k <= moments.count() {
        Some((moments.byte(k, 0x8000_0100), moments.source(k, 0x8000_0100)))
    } else {
        None
    }
}

#[test]
fn writes_happen_in_the_order_of_their_keys(rt: HostRuntime) -> Result<(), Fail> {
    let image = Image::of(Vec::new(rt.alloc()));
    let moments = moments_of(rt.alloc(), image, &RECORDS)?;
    let key = |stamp, hart, seq| Some(Key { stamp, hart, seq });
    for (k, byte, source) in [
        (0, 0, None),
        (1, 7, key(10, 0, 1)),
        (2, 8, key(12, 0, 2)),
        (3, 9, key(12, 1, 0)),
    ] {
        assert_eq!(rt; found(&moments, k), Some((byte, source)), "moment {k}");
    }
    assert_eq!(rt; moments.count(), 3);
    Ok(())
}

/// Two writes to the same line, the later one of fewer bytes.
const HELD: [Write; 2] = [
    Write {
        key: Key {
            stamp: 3,
            hart: 1,
            seq: 0,
        },
        line: 0x8000_0100,
        mask: 0xff,
        bytes: [5; 64],
    },
    Write {
        key: Key {
            stamp: 4,
            hart: 0,
            seq: 2,
        },
        line: 0x8000_0100,
        mask: 0xf,
        bytes: [6; 64],
    },
];

#[test]
fn writes_are_held_over_an_image(rt: HostRuntime) -> Result<(), Fail> {
    let image = Image::of(Vec::new(rt.alloc()));
    let moments = moments_over(rt.alloc(), image, &HELD)?;
    assert_eq!(rt; moments.count(), 2);
    assert_eq!(rt; moments.byte(1, 0x8000_0100), 5);
    assert_eq!(rt; moments.byte(2, 0x8000_0100), 6);
    assert_eq!(rt; moments.byte(2, 0x8000_0104), 5);
    Ok(())
}
