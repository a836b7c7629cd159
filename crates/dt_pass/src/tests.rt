//! Whole probe files, as the program gets them.
use crate::{a_file_has_one_check, fail_is_first, pass, pass_is_all_allowed};
use dt_probe_file::FileProbes;
use dt_record::{Body, Image, Key, Reason, Record, Retire, lawful};
use dt_record_bytes::encode;
use dt_source::MemSource;
use dt_verdict::{Checked, Counts, Failure, Noted, Refusal, Verdict};
use std::alloc::{AllocError, Global};
use std::process::Abort;
use std::test::Fail;

/// addi x1,x0,5
const FIVE: u32 = 0x0050_0093;

/// A file of version 1 with these records.
fn file(alloc: Global, harts: u8, records: &[Record]) -> Result<Vec<u8>, AllocError> {
    let mut bytes = Vec::from_slice(alloc, b"SMPDIFF\0\x01\0")?;
    bytes.extend_from_slice(&[harts, 0, 0, 0, 0, 0])?;
    for event in records {
        if lawful(event) {
            encode(event, &mut bytes)?;
        }
    }
    bytes.push(255)?;
    bytes.extend_from_slice(&(records.len() as u64).to_le_bytes())?;
    Ok(bytes)
}

/// Checks a file over an image that begins with these instructions, where the reads with these
/// numbers fail.
fn check(
    alloc: Global,
    words: &[u32],
    bytes: Vec<u8>,
    fail: &[u64],
) -> Result<Result<Checked, Refusal>, AllocError> {
    let mut image = [0; 256];
    for i in 0..words.len().min(64) {
        image[4 * i..4 * i + 4].copy_from_slice(&words[i].to_le_bytes());
    }
    let image = Image::of(Vec::from_slice(alloc, &image)?);
    let source = MemSource::new(bytes, 4096, fail.to_vec(alloc)?);
    let mut probes = FileProbes::new(alloc, source)?;
    Ok(pass(alloc, &image, &mut probes))
}

/// Compares what was answered with what is expected, where the records were not refused.
fn compare(
    rt: &impl Abort,
    answer: &Result<Checked, Refusal>,
    verdict: Verdict,
    counts: &[Counts],
    notes: &[Noted],
) {
    match answer {
        Ok(checked) => {
            assert_eq!(rt; checked.verdict, verdict);
            assert_eq!(rt; checked.harts as usize, counts.len());
            assert_eq!(rt; checked.tallies.harts.items(), counts);
            assert_eq!(rt; checked.tallies.notes.items(), notes);
        }
        Err(refusal) => panic!(rt; "{refusal:?}"),
    }
}

fn commit(stamp: u64, hart: u8, place: u32, bits: u32, value: u64) -> Record {
    let pc = 0x8000_0000 + u64::from(place);
    let retire = Retire { pc, bits, value };
    Record {
        stamp,
        hart,
        body: Body::Commit { retire },
    }
}

/// A drain that writes 7 into the first and the eighth byte of the line, where the mask has them.
fn drain(stamp: u64, mask: u64, count: u16) -> Record {
    let mut bytes = [0; 64];
    if mask % 2 == 1 {
        bytes[0] = 7;
    }
    if mask >= 0x100 {
        bytes[8] = 7;
    }
    Record {
        stamp,
        hart: 0,
        body: Body::Drain {
            line: 0x8000_0100,
            mask,
            count,
            bytes,
        },
    }
}

const fn key(stamp: u64, hart: u8, seq: u32) -> Key {
    Key { stamp, hart, seq }
}

const fn fail(key: Key, reason: Reason, expected: u64, found: u64) -> Verdict {
    Verdict::Fail(Failure {
        key,
        reason,
        expected,
        found,
    })
}

fn retired(records: u32) -> Counts {
    Counts {
        records,
        retired: records,
        ..Counts::default()
    }
}

#[test]
fn one_hart_alone(rt: HostRuntime) -> Result<(), Fail> {
    pass_is_all_allowed();
    fail_is_first();
    a_file_has_one_check();
    let value = fail(key(1, 0, 0), Reason::Value, 5, 6);
    for (found, verdict, count) in [(5, Verdict::Pass, 1), (6, value, 0)] {
        let bytes = file(rt.alloc(), 1, &[commit(1, 0, 0, FIVE, found)])?;
        let answer = check(rt.alloc(), &[FIVE], bytes, &[])?;
        compare(&rt, &answer, verdict, &[retired(count)], &[]);
    }
    let answer = check(rt.alloc(), &[], file(rt.alloc(), 1, &[])?, &[])?;
    compare(&rt, &answer, Verdict::Pass, &[retired(0)], &[]);
    Ok(())
}

fn refusal_of(answer: &Result<Checked, Refusal>) -> Option<Refusal> {
    match answer {
        Ok(_) => None,
        Err(refusal) => Some(*refusal),
    }
}

#[test]
fn a_cut_file_and_a_failed_read_are_refused(rt: HostRuntime) -> Result<(), Fail> {
    let mut bytes = file(rt.alloc(), 1, &[commit(1, 0, 0, FIVE, 5)])?;
    let answer = check(rt.alloc(), &[FIVE], bytes.clone()?, &[0])?;
    assert_eq!(rt; refusal_of(&answer), Some(Refusal::ReadFault));
    let _ = bytes.pop();
    let answer = check(rt.alloc(), &[FIVE], bytes, &[])?;
    let cut = Refusal::Malformed { offset: 46 };
    assert_eq!(rt; refusal_of(&answer), Some(cut));
    Ok(())
}
