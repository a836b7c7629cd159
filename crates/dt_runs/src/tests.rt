use crate::{HartRun, file_records_are_own, runs_come_to_an_end};
use dt_judge::Hart;
use dt_record::{
    Body, Image, Key, Letters, Origin, RECORD_LIMIT, Reason, Record, Retire, Sources, Write, lawful,
};
use dt_verdict::{Failure, Noted, Outcome};
use dt_versions::Moments;
use std::alloc::{AllocError, Global};
use std::process::Abort;
use std::test::Fail;

const PC: u64 = 0x8000_0000;

const LINE: u64 = 0x8000_0100;

/// addi x1,x0,5; addi x1,x0,5; addi x1,x0,5
const FIVES: [u32; 3] = [0x0050_0093; 3];

/// auipc x5,0; ld x8,256(x5); ld x8,256(x5)
const LOADS: [u32; 3] = [0x0000_0297, 0x1002_b403, 0x1002_b403];

/// Memory that begins with these instructions.
fn memory(alloc: Global, words: &[u32; 3]) -> Result<Moments, AllocError> {
    let mut bytes = [0; 12];
    for i in 0..3 {
        bytes[4 * i..4 * i + 4].copy_from_slice(&words[i].to_le_bytes());
    }
    let image = Image::of(Vec::from_slice(alloc, &bytes)?);
    Ok(Moments::empty(alloc, image))
}

/// Judges a next record of the hart.
fn judge(
    rt: &impl Abort,
    run: &mut HartRun,
    m: &Moments,
    stamp: u64,
    body: Body,
) -> Result<(), AllocError> {
    let event = Record {
        stamp,
        hart: run.number(),
        body,
    };
    assert!(rt; lawful(&event));
    assert!(rt; run.stamp() <= stamp && run.seq() < RECORD_LIMIT);
    assert!(rt; !run.has_failed());
    run.judge(m, &event)
}

fn commit(place: u32, bits: u32, value: u64) -> Body {
    let pc = PC + u64::from(place);
    let retire = Retire { pc, bits, value };
    Body::Commit { retire }
}

/// A load from the line.
fn load(place: u32, at: u64, value: u64) -> Body {
    let retire = Retire {
        pc: PC + u64::from(place),
        bits: LOADS[1],
        value,
    };
    Body::Load {
        retire,
        at,
        paddr: LINE,
    }
}

/// What is said of a load of 8 bytes with one source.
fn note(key: Key, l: bool, origin: Origin) -> Noted {
    Noted {
        key,
        letters: Letters {
            l,
            s: false,
            p: false,
            i: false,
            d: false,
            c: false,
            z: false,
        },
        sources: Sources {
            count: 8,
            from: [origin; 8],
        },
    }
}

#[test]
fn a_run_stops_at_the_first_record_that_is_not_allowed(rt: HostRuntime) -> Result<(), Fail> {
    file_records_are_own();
    runs_come_to_an_end();
    let m = memory(rt.alloc(), &FIVES)?;
    let mut run = HartRun::new(rt.alloc(), 3, false);
    judge(&rt, &mut run, &m, 1, commit(0, FIVES[0], 5))?;
    let fine = Outcome {
        hart: 3,
        failure: None,
    };
    assert_eq!(rt; run.outcome(), fine);
    judge(&rt, &mut run, &m, 7, commit(4, FIVES[1], 6))?;
    assert!(rt; run.has_failed());
    assert_eq!(rt; (run.number(), run.seq(), run.stamp()), (3, 1, 1));
    let key = Key {
        stamp: 7,
        hart: 3,
        seq: 1,
    };
    let failure = Failure {
        key,
        reason: Reason::Value,
        expected: 5,
        found: 6,
    };
    let failed = Outcome {
        hart: 3,
        failure: Some(failure),
    };
    assert_eq!(rt; run.outcome(), failed);
    assert!(rt; run.into_notes().is_empty());
    Ok(())
}

#[test]
fn memory_grows_between_the_records(rt: HostRuntime) -> Result<(), Fail> {
    let mut m = memory(rt.alloc(), &LOADS)?;
    let mut run = HartRun::behind(rt.alloc(), Hart::new(rt.alloc(), 1, false));
    judge(&rt, &mut run, &m, 1, commit(0, LOADS[0], PC))?;
    judge(&rt, &mut run, &m, 9, load(4, 9, 0))?;
    let key = Key {
        stamp: 10,
        hart: 0,
        seq: 5,
    };
    let mut bytes = [0; 64];
    bytes[0] = 7;
    let write = Write {
        key,
        line: LINE,
        mask: 0xff,
        bytes,
    };
    assert!(rt; m.can_add(&write));
    m.add(write)?;
    judge(&rt, &mut run, &m, 12, load(8, 12, 7))?;
    let first = note(
        Key {
            stamp: 9,
            hart: 1,
            seq: 1,
        },
        false,
        Origin::Image,
    );
    let second = note(
        Key {
            stamp: 12,
            hart: 1,
            seq: 2,
        },
        true,
        Origin::Write(key),
    );
    assert_eq!(rt; run.seq(), 3);
    assert_eq!(rt; run.into_notes().as_slice(), [first, second].as_slice());
    Ok(())
}
