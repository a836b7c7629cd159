use crate::Settled;
use dt_record::{Image, Key, Note, Write};
use dt_versions::Moments;
use std::test::Fail;

const LINE: u64 = 0x8000_0100;

fn key(stamp: u64, hart: u8, seq: u32) -> Key {
    Key { stamp, hart, seq }
}

/// A write of the first byte of a line.
fn wrote(key: Key, line: u64, byte: u8) -> Note {
    let mut bytes = [0; 64];
    bytes[0] = byte;
    Note::Wrote(Write {
        key,
        line,
        mask: 1,
        bytes,
    })
}

fn mark(hart: u8, stamp: u64) -> Note {
    Note::Mark { hart, stamp }
}

/// How many writes have settled, and the key of the last.
fn last(moments: &Moments) -> (u32, Option<Key>) {
    let count = moments.count();
    (count, moments.source(count, LINE))
}

/// The first byte of the line, where there is such a moment.
fn byte_at(moments: &Moments, k: u32) -> Option<u8> {
    if k <= moments.count() {
        Some(moments.byte(k, LINE))
    } else {
        None
    }
}

#[test]
fn writes_settle_below_the_least_mark_in_the_order_of_their_keys(
    rt: HostRuntime,
) -> Result<(), Fail> {
    let notes = [
        wrote(key(12, 0, 1), LINE, 7),
        mark(0, 12),
        wrote(key(10, 1, 0), LINE, 9),
        mark(1, 11),
        wrote(key(11, 1, 1), LINE, 5),
        mark(1, 13),
    ];
    let mut settled = Settled::new(rt.alloc(), Image::of(Vec::new(rt.alloc())));
    assert_eq!(rt; last(settled.moments()), (0, None));
    settled.see(&notes[..4], Some(11))?;
    assert_eq!(rt; last(settled.moments()), (1, Some(key(10, 1, 0))));
    settled.see(&notes, Some(12))?;
    assert_eq!(rt; last(settled.moments()), (2, Some(key(11, 1, 1))));
    settled.see(&notes, None)?;
    assert_eq!(rt; last(settled.moments()), (3, Some(key(12, 0, 1))));
    assert_eq!(rt; settled.moments().byte(0, LINE), 0);
    Ok(())
}

#[test]
fn writes_that_memory_cannot_take_are_left_out(rt: HostRuntime) -> Result<(), Fail> {
    let notes = [
        wrote(key(5, 0, 0), LINE, 1),
        wrote(key(6, 0, 1), 0x7fff_ffc0, 2),
        wrote(key(8, 0, 2), LINE, 3),
        wrote(key(4, 1, 0), LINE, 4),
    ];
    let mut settled = Settled::new(rt.alloc(), Image::of(Vec::new(rt.alloc())));
    settled.see(&notes[..3], Some(7))?;
    assert_eq!(rt; last(settled.moments()), (1, Some(key(5, 0, 0))));
    settled.see(&notes, Some(3))?;
    assert_eq!(rt; last(settled.moments()), (1, Some(key(5, 0, 0))));
    settled.see(&notes, None)?;
    assert_eq!(rt; last(settled.moments()), (2, Some(key(8, 0, 2))));
    assert_eq!(rt; byte_at(settled.moments(), 1), Some(1));
    assert_eq!(rt; byte_at(settled.moments(), 2), Some(3));
    Ok(())
}

/// A later look that brings the notes alone which were not seen, and a second write with a key that
/// already waits.
#[test]
fn of_two_waiting_writes_with_one_key_the_first_stays(rt: HostRuntime) -> Result<(), Fail> {
    let mut settled = Settled::new(rt.alloc(), Image::of(Vec::new(rt.alloc())));
    settled.see_more(&[wrote(key(5, 0, 0), LINE, 1)], Some(5))?;
    assert_eq!(rt; last(settled.moments()), (0, None));
    let more = [wrote(key(5, 0, 0), LINE, 2), wrote(key(6, 0, 1), LINE, 3)];
    settled.see_more(&more, Some(6))?;
    assert_eq!(rt; last(settled.moments()), (1, Some(key(5, 0, 0))));
    assert_eq!(rt; byte_at(settled.moments(), 1), Some(1));
    settled.see_more(&[], None)?;
    assert_eq!(rt; last(settled.moments()), (2, Some(key(6, 0, 1))));
    Ok(())
}
