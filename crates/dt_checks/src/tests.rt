ghost use Rattle.std.specs.Prelude.{IsTrue};
ghost use Rattle.dt_record.specs.Lawful.{is_instruction};

use crate::{FetchSpans, Started, half_fetched, start};
use dt_record::{Image, Key, Write};
use dt_rules::{Misfit, NO_NUMBER, Reason};
use dt_step::{Planned, reset};
use dt_versions::{Moments, Span};
use std::alloc::{AllocError, Global};
use std::process::Abort;
use std::test::Fail;

/// The moment before any write.
const FIRST: Span = Span { first: 0, last: 0 };

/// Memory that begins with a word.
fn memory(alloc: Global, word: u32) -> Result<Moments, AllocError> {
    let bytes = Vec::from_slice(alloc, &word.to_le_bytes())?;
    Ok(Moments::empty(alloc, Image::of(bytes)))
}

fn refused(reason: Reason, expected: u64, found: u64) -> Result<Started, Misfit> {
    Err(Misfit {
        reason,
        expected,
        found,
    })
}

/// x1 gets 5, and the next instruction is at this address.
fn five(next: u64) -> Result<Started, Misfit> {
    let plan = Planned::Done {
        rd: 1,
        value: 5,
        next,
    };
    Ok(Started { plan, stale: false })
}

fn instruction(rt: &impl Abort, bits: u32) -> u32
    ensures { IsTrue (is_instruction result) }
{
    assert!(rt; bits % 4 == 3 || bits < 0x1_0000);
    bits
}

/// After a reset, with this word in memory.
#[test]
fn instructions_that_start(rt: HostRuntime) -> Result<(), Fail> {
    let a = reset(0);
    let spans = FetchSpans {
        first: FIRST,
        second: FIRST,
        since: FIRST,
    };
    for (word, pc, bits, tag, expected) in [
        (0x0050_0093, 0x8000_0000, 0x0050_0093, 1, five(0x8000_0004)),
        (0xffff_4095, 0x8000_0000, 0x4095, 1, five(0x8000_0002)),
        (
            0x0050_0093,
            0x8000_0004,
            0x0050_0093,
            1,
            refused(Reason::Pc, 0x8000_0000, 0x8000_0004),
        ),
        (
            0x0050_0093,
            0x8000_0000,
            0x0050_0193,
            1,
            refused(Reason::Fetch, 0x8000_0000, 0x0193),
        ),
        (
            0x0050_0093,
            0x8000_0000,
            0x0051_0093,
            1,
            refused(Reason::Fetch, 0x8000_0002, 0x0051),
        ),
        (
            0x0000_0000,
            0x8000_0000,
            0x0000_0000,
            1,
            refused(Reason::Raises, 2, NO_NUMBER),
        ),
        (
            0x0000_0073,
            0x8000_0000,
            0x0000_0073,
            1,
            refused(Reason::Raises, 11, NO_NUMBER),
        ),
        (
            0x1002_b403,
            0x8000_0000,
            0x1002_b403,
            1,
            refused(Reason::Kind, 5, 1),
        ),
    ] {
        let m = memory(rt.alloc(), word)?;
        let answer = start(&m, spans, &a, pc, instruction(&rt, bits), tag);
        assert_eq!(rt; answer, expected, "{bits:x} as {tag}");
    }
    Ok(())
}

/// A write makes the first halfword 0 at moment 1.
#[test]
fn an_older_halfword_is_told(rt: HostRuntime) -> Result<(), Fail> {
    let mut m = memory(rt.alloc(), 0x4095)?;
    let cleared = Write {
        key: Key {
            stamp: 1,
            hart: 0,
            seq: 0,
        },
        line: 0x8000_0000,
        mask: 3,
        bytes: [0; 64],
    };
    assert!(rt; m.can_add(&cleared));
    m.add(cleared)?;
    let a = reset(0);
    for (half, first, expected) in [
        (0x4095, 0, Ok(true)),
        (0x0000, 0, Ok(false)),
        (
            0x4095,
            1,
            Err(Misfit {
                reason: Reason::Fetch,
                expected: 0x8000_0000,
                found: 0x4095,
            }),
        ),
    ] {
        let since = Span { first, last: 1 };
        assert!(rt; since.last <= m.count());
        let answer = half_fetched(&m, FIRST, since, &a, 0x8000_0000, half);
        assert_eq!(rt; answer, expected, "{half:x} from {first}");
    }
    Ok(())
}
