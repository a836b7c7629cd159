use crate::{Misfit, first_writes_decide_refills, refill};
use dt_record::{Image, Key, Reason, Write};
use dt_versions::{Moments, Span};
use std::process::Abort;
use std::test::Fail;

const LINE: u64 = 0x8000_0000;

/// A line that begins with these bytes, with zeros behind them.
fn line(bytes: [u8; 4]) -> [u8; 64] {
    let mut line = [0; 64];
    line[..4].copy_from_slice(&bytes);
    line
}

/// The image begins with an instruction, over the first byte of which one write puts 7.
fn written(rt: &impl Abort, alloc: std::alloc::Global) -> Result<Moments, std::alloc::AllocError> {
    let bytes = Vec::from_slice(alloc, &[0x93, 0, 0x50, 0])?;
    let mut m = Moments::empty(alloc, Image::of(bytes));
    let w = Write {
        key: Key {
            stamp: 10,
            hart: 0,
            seq: 5,
        },
        line: LINE,
        mask: 1,
        bytes: line([7, 0, 0, 0]),
    };
    assert!(rt; m.can_add(&w));
    m.add(w)?;
    Ok(m)
}

#[test]
fn lines_of_some_moment(rt: HostRuntime) -> Result<(), Fail> {
    first_writes_decide_refills();
    let m = written(&rt, rt.alloc())?;
    let refused = |expected, found| {
        Err(Misfit {
            reason: Reason::Refill,
            expected,
            found,
        })
    };
    for (first, last, bytes, expected) in [
        (0, 1, [0x93, 0, 0x50, 0], Ok(())),
        (0, 1, [7, 0, 0x50, 0], Ok(())),
        (1, 1, [0x93, 0, 0x50, 0], refused(7, 0x93)),
        (0, 0, [0x94, 0, 0x50, 0], refused(0x93, 0x94)),
        (0, 1, [7, 0, 0x51, 0], refused(0x50, 0x51)),
    ] {
        assert!(rt; last <= m.count());
        let seen = Span { first, last };
        assert_eq!(rt; refill(&m, seen, LINE, &line(bytes)), expected);
    }
    Ok(())
}
