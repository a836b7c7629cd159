//! The check of one file by any number of workers, streams that are refused, and a gate that shows that
//! the threads of a check overlap: no clause says so.
ghost use Rattle.std.specs.Prelude.{◌≤◌};

use crate::check;
use dt_pass::pass;
use dt_probe_file::FileProbes;
use dt_record::{Body, Image, Key, Next, Probes, Reason, Record, Retire, What, lawful};
use dt_record_bytes::encode;
use dt_source::{FreeGate, Gate, GateEvent, MemSource};
use dt_verdict::{Checked, Refusal, Verdict};
use std::alloc::{AllocError, Global};
use std::sync::Wait;
use std::sync::atomic::{AtomicU64, Ordering};
use std::test::Fail;
use std::thread;
use std::thread::Threads;

/// A file of version 1 with two harts and these records.
fn file(alloc: Global, records: &[Record]) -> Result<Vec<u8>, AllocError> {
    let mut bytes = Vec::from_slice(alloc, b"SMPDIFF\0\x01\0\x02\0\0\0\0\0")?;
    for event in records {
        if lawful(event) {
            encode(event, &mut bytes)?;
        }
    }
    bytes.push(255)?;
    bytes.extend_from_slice(&(records.len() as u64).to_le_bytes())?;
    Ok(bytes)
}

/// So many Beats of two harts in turn, one in each cycle.
fn beats(alloc: Global, count: u64) -> Result<Vec<Record>, AllocError> {
    let mut records = Vec::new(alloc);
    for stamp in 0..count {
        records.push(Record {
            stamp,
            hart: (stamp % 2) as u8,
            body: Body::Beat,
        })?;
    }
    Ok(records)
}

/// A source of the file with these records.
fn source(alloc: Global, records: &[Record]) -> Result<MemSource, AllocError> {
    Ok(MemSource::new(file(alloc, records)?, 4096, Vec::new(alloc)))
}

/// addi x1,x0,5 at the first place of the memory, with this value.
fn five(stamp: u64, hart: u8, value: u64) -> Record {
    let retire = Retire {
        pc: 0x8000_0000,
        bits: 0x0050_0093,
        value,
    };
    Record {
        stamp,
        hart,
        body: Body::Commit { retire },
    }
}

fn image(alloc: Global) -> Result<Image, AllocError> {
    Ok(Image::of(Vec::from_slice(alloc, &[0x93, 0, 0x50, 0])?))
}

fn is_same(one: &Result<Checked, Refusal>, other: &Result<Checked, Refusal>) -> bool {
    match (one, other) {
        (Ok(a), Ok(b)) => {
            a.verdict == b.verdict
                && a.harts == b.harts
                && a.tallies.harts.items() == b.tallies.harts.items()
                && a.tallies.notes.items() == b.tallies.notes.items()
        }
        (Err(a), Err(b)) => a == b,
        _ => false,
    }
}

/// What so many workers answer of the file with these records.
fn answer_of<R: Threads + Wait + Sync>(
    rt: &R,
    alloc: Global,
    records: &[Record],
    workers: u8,
) -> Result<Result<Checked, Refusal>, AllocError>
    requires some { 1 ≤ workers }
    requires few { workers ≤ 8 }
{
    let image = image(alloc)?;
    let mut probes = FileProbes::new(alloc, source(alloc, records)?)?;
    Ok(check(rt, alloc, &image, &mut probes, workers, &FreeGate))
}

/// What one thread answers of it.
fn plain_answer(alloc: Global, records: &[Record]) -> Result<Result<Checked, Refusal>, AllocError> {
    let image = image(alloc)?;
    let mut probes = FileProbes::new(alloc, source(alloc, records)?)?;
    Ok(pass(alloc, &image, &mut probes))
}

#[test]
fn any_number_of_workers_answers_the_same(rt: HostRuntime) -> Result<(), Fail> {
    let alloc = rt.alloc();
    let records = vec![in alloc; five(1, 0, 5), five(2, 1, 6), five(3, 0, 7)]?;
    let one = plain_answer(alloc, &records)?;
    for workers in [1, 2, 8] {
        let answer = answer_of(&rt, alloc, &records, workers)?;
        assert!(rt; is_same(&one, &answer));
    }
    Ok(())
}

/// The failure of a file that is not refused.
fn failure_of(answer: &Result<Checked, Refusal>) -> Option<(Key, Reason)> {
    match answer {
        Ok(
            Checked {
                verdict: Verdict::Fail(failure),
                ..
            },
        ) => Some((failure.key, failure.reason)),
        _ => None,
    }
}

#[test]
fn workers_find_the_first_failure(rt: HostRuntime) -> Result<(), Fail> {
    let alloc = rt.alloc();
    let records = vec![in alloc; five(1, 0, 5), five(2, 1, 6), five(3, 0, 7)]?;
    let failing = Key {
        stamp: 2,
        hart: 1,
        seq: 0,
    };
    let answer = answer_of(&rt, alloc, &records, 2)?;
    assert_eq!(rt; failure_of(&answer), Some((failing, Reason::Value)));
    Ok(())
}

/// Why a stream is cut.
#[derive(Clone, Copy, Debug)]
enum Cause {
    Malformed,
    Limit,
    ReadFault,
}

/// Beats of two harts in turn, cut behind so many.
#[derive(Drop)]
struct Cut {
    opened: bool,
    to_come: u64,
    count: u64,
    faults: u64,
    cause: Cause,
    ended: Option<Next>,
}

impl Probes for Cut {
    ghost use Rattle.std.specs.Prelude.{false, None, Some, if◌then◌else◌};

    ghost progress = { λ s. record {
      harts = if s.opened then Some 2 else None;
      wide = false;
      stamps = λ _. 0;
      events = s.count;
      writes = 0;
      ended = s.ended;
    } };

    ghost left = { λ _. None };

    ghost faults = { λ s. s.faults };

    fn is_over(&self) -> bool {
        self.ended.is_some()
    }

    fn next(&mut self) -> Next {
        if !self.opened {
            self.opened = true;
            self.count = 0;
            return Next::Header {
                harts: 2,
                wide: false,
            };
        }
        if self.count < 4_194_304 && self.to_come > 0 {
            self.count += 1;
            self.to_come -= 1;
            return Next::Event(Record {
                stamp: 0,
                hart: (self.count % 2) as u8,
                body: Body::Beat,
            });
        }
        let last = match self.cause {
            Cause::Malformed => Next::Malformed { offset: 9 },
            Cause::Limit => Next::Limit {
                what: What::Writes,
                number: 1_048_577,
            },
            Cause::ReadFault => {
                self.faults = self.faults.saturating_add(1);
                self.ended = Some(Next::ReadFault);
                return Next::ReadFault;
            }
        };
        self.ended = Some(last);
        last
    }
}

/// Why the check of a stream that is cut answers nothing.
fn refusal_of<R: Threads + Wait + Sync>(
    rt: &R,
    alloc: Global,
    cause: Cause,
    workers: u8,
) -> Option<Refusal>
    requires some { 1 ≤ workers }
    requires few { workers ≤ 8 }
{
    let mut probes = Cut {
        opened: false,
        to_come: 1000,
        count: 0,
        faults: 0,
        cause,
        ended: None,
    };
    let image = Image::of(Vec::new(alloc));
    match check(rt, alloc, &image, &mut probes, workers, &FreeGate) {
        Ok(_) => None,
        Err(refusal) => Some(refusal),
    }
}

#[test]
fn a_stream_that_is_cut_is_refused(rt: HostRuntime) {
    let limit = Refusal::Limit {
        what: What::Writes,
        number: 1_048_577,
    };
    for workers in [1, 2, 8] {
        let malformed = refusal_of(&rt, rt.alloc(), Cause::Malformed, workers);
        assert_eq!(rt; malformed, Some(Refusal::Malformed { offset: 9 }));
        let too_many = refusal_of(&rt, rt.alloc(), Cause::Limit, workers);
        assert_eq!(rt; too_many, Some(limit));
        let fault = refusal_of(&rt, rt.alloc(), Cause::ReadFault, workers);
        assert_eq!(rt; fault, Some(Refusal::ReadFault));
    }
}

/// Holds the feed at a record until a worker judges, and this judgement until the other worker takes.
/// Where a hold is not over in so many turns, it is given up.
#[derive(Drop)]
struct Hold {
    fed: AtomicU64,
    judging: AtomicU64,
    took: AtomicU64,
    gave_up: AtomicU64,
}

impl Hold {
    fn until(&self, flag: &AtomicU64) {
        for _ in 0..50_000_000 {
            if is_set(flag) || is_set(&self.gave_up) {
                return;
            }
            thread::yield_now();
        }
        self.gave_up.store(1, Ordering::SeqCst);
    }
}

impl Gate for Hold {
    fn at(&self, event: GateEvent) {
        match event {
            GateEvent::Fed { n: 100 } => {
                self.fed.store(1, Ordering::SeqCst);
                self.until(&self.judging);
            }
            GateEvent::Judged {
                worker: 0,
                n: 0,
                ..
            } => {
                self.judging.store(1, Ordering::SeqCst);
                self.until(&self.took);
            }
            GateEvent::Took { worker: 1, .. } => {
                if self.judging.load(Ordering::SeqCst) != 0 {
                    self.took.store(1, Ordering::SeqCst);
                }
            }
            _ => {}
        }
    }
}

fn is_set(flag: &AtomicU64) -> bool {
    flag.load(Ordering::SeqCst) != 0
}

/// A body that reads the file to its end before it judges, or that judges in one thread, holds for ever
/// at the one record or at the other, and gives up.
#[test]
fn threads_judge_while_others_feed_and_take(rt: HostRuntime) -> Result<(), Fail> {
    let records = beats(rt.alloc(), 1000)?;
    let mut probes = FileProbes::new(rt.alloc(), source(rt.alloc(), &records)?)?;
    let image = Image::of(Vec::new(rt.alloc()));
    let gate = Hold {
        fed: AtomicU64::new(0),
        judging: AtomicU64::new(0),
        took: AtomicU64::new(0),
        gave_up: AtomicU64::new(0),
    };
    let Ok(checked) = check(&rt, rt.alloc(), &image, &mut probes, 2, &gate) else {
        panic!(rt; "refused");
    };
    assert_eq!(rt; checked.verdict, Verdict::Pass);
    assert!(rt; is_set(&gate.fed) && is_set(&gate.judging) && is_set(&gate.took));
    assert!(rt; !is_set(&gate.gave_up));
    Ok(())
}
