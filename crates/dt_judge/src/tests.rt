use crate::{Hart, Judged, judge};
use dt_record::{Body, Image, Key, Origin, RECORD_LIMIT, Record, Retire, Sources, Write, lawful};
use dt_rules::{Letters, NO_LETTERS, NO_NUMBER, NO_SOURCES, Reason};
use dt_versions::Moments;
use std::alloc::{AllocError, Global};
use std::process::Abort;
use std::test::Fail;

const PC: u64 = 0x8000_0000;

const LINE: u64 = 0x8000_0100;

/// An image that begins with these instructions and has a double at the line.
fn memory(alloc: Global, words: &[u32], data: u64) -> Result<Moments, AllocError> {
    let mut bytes = [0; 264];
    for i in 0..words.len().min(64) {
        bytes[4 * i..4 * i + 4].copy_from_slice(&words[i].to_le_bytes());
    }
    bytes[256..].copy_from_slice(&data.to_le_bytes());
    let bytes = Vec::from_slice(alloc, &bytes)?;
    Ok(Moments::empty(alloc, Image::of(bytes)))
}

/// Hart 0 writes a double into the first 8 bytes of a line, in cycle 10.
fn put(rt: &impl Abort, m: &mut Moments, line: u64, value: u64) -> Result<(), AllocError> {
    let mut bytes = [0; 64];
    bytes[..8].copy_from_slice(&value.to_le_bytes());
    let key = Key {
        stamp: 10,
        hart: 0,
        seq: 5,
    };
    let w = Write {
        key,
        line,
        mask: 0xff,
        bytes,
    };
    assert!(rt; m.can_add(&w));
    m.add(w)
}

/// Judges the hart's records one after another, with their stamps, and compares the answers.
fn judge_all(rt: &impl Abort, hart: &mut Hart, m: &Moments, steps: &[(u64, Body, Judged)]) {
    for (stamp, body, expected) in steps {
        let event = Record {
            stamp: *stamp,
            hart: hart.number(),
            body: *body,
        };
        assert!(rt; lawful(&event));
        assert!(rt; hart.stamp() <= *stamp && hart.seq() < RECORD_LIMIT);
        assert_eq!(rt; judge(hart, m, &event), *expected, "{event:?}");
    }
}

fn commit(place: u32, bits: u32, value: u64) -> Body {
    let pc = PC + u64::from(place);
    let retire = Retire { pc, bits, value };
    Body::Commit { retire }
}

/// A load of a double from an address at which RAM or a device may be.
fn load(place: u32, bits: u32, value: u64, at: u64, paddr: u64) -> Body {
    let pc = PC + u64::from(place);
    let retire = Retire { pc, bits, value };
    Body::Load { retire, at, paddr }
}

fn fine(letters: Letters) -> Judged {
    Judged::Fine {
        letters,
        sources: NO_SOURCES,
    }
}

fn plain() -> Judged {
    fine(NO_LETTERS)
}

fn read(l: bool, from: [Origin; 8]) -> Judged {
    Judged::Fine {
        letters: Letters { l, ..NO_LETTERS },
        sources: Sources { count: 8, from },
    }
}

fn fail(reason: Reason, expected: u64, found: u64) -> Judged {
    Judged::Fail {
        reason,
        expected,
        found,
    }
}

/// Judges the records of a hart after a reset, the first instructions of whose memory are these.
fn judge_alone(
    rt: &impl Abort,
    alloc: Global,
    words: &[u32],
    steps: &[(u64, Body, Judged)],
) -> Result<(), AllocError> {
    let m = memory(alloc, words, 0)?;
    judge_all(rt, &mut Hart::new(alloc, 0, false), &m, steps);
    Ok(())
}

#[test]
fn values_of_instructions(rt: HostRuntime) -> Result<(), Fail> {
    let five = 0x0050_0093;
    let cycle = 0xc000_20f3;
    let counted = fine(Letters {
        c: true,
        ..NO_LETTERS
    });
    judge_alone(
        &rt,
        rt.alloc(),
        &[five],
        &[
            (1, commit(0, five, 6), fail(Reason::Value, 5, 6)),
            (1, commit(4, five, 5), fail(Reason::Pc, PC, PC + 4)),
            (1, commit(0, five, 5), plain()),
            (1, Body::Beat, plain()),
        ],
    )?;
    judge_alone(
        &rt,
        rt.alloc(),
        &[cycle, cycle],
        &[
            (1, commit(0, cycle, 0x64), counted),
            (1, commit(4, cycle, 0x63), fail(Reason::Counter, 0x64, 0x63)),
        ],
    )?;
    judge_alone(
        &rt,
        rt.alloc(),
        &[0x73],
        &[(1, commit(0, 0x73, 0), fail(Reason::Raises, 0xb, NO_NUMBER))],
    )?;
    Ok(())
}

/// Judges a load of hart 1 with a stamp, a value and a cycle, where hart 0 drained 7 in cycle 10.
fn judge_after_drain(
    rt: &impl Abort,
    alloc: Global,
    (stamp, value, at): (u64, u64, u64),
    expected: Judged,
) -> Result<(), AllocError> {
    let words = [
        0x0000_0297,
        0xf140_2373,
        0x0003_1663,
        0x0070_0393,
        0x1072_b023,
        0x1002_b403,
    ];
    let mut m = memory(alloc, &words, 0)?;
    put(rt, &mut m, LINE, 7)?;
    judge_all(
        rt,
        &mut Hart::new(alloc, 1, false),
        &m,
        &[
            (1, commit(0, words[0], PC), plain()),
            (2, commit(4, words[1], 1), plain()),
            (3, commit(8, words[2], 0), plain()),
            (stamp, load(20, words[5], value, at, LINE), expected),
        ],
    );
    Ok(())
}

#[test]
fn loads_after_another_harts_drain(rt: HostRuntime) -> Result<(), Fail> {
    let key = Key {
        stamp: 10,
        hart: 0,
        seq: 5,
    };
    let drained = read(true, [Origin::Write(key); 8]);
    let image = read(false, [Origin::Image; 8]);
    for (stamp, value, at, expected) in [
        (12, 7, 12, drained),
        (10, 7, 10, drained),
        (10, 0, 10, image),
        (12, 0, 12, fail(Reason::LoadSource, 7, 0)),
        (12, 0, 9, image),
    ] {
        judge_after_drain(&rt, rt.alloc(), (stamp, value, at), expected)?;
    }
    Ok(())
}
