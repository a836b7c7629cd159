//! Two threads: one feeds the records of a file, the other takes from both queues.
ghost use Rattle.std.specs.Prelude.{◌≡◌};
ghost use Rattle.dt_shared.specs.Records.{identity};

use super::*;
use dt_probe_file::FileProbes;
use dt_queue::{Feed, Pop, Take, pair};
use dt_reading::read_header;
use dt_record::{Body, Record, lawful};
use dt_record_bytes::encode;
use dt_shared::{Pass, SharedRecord};
use dt_source::{FreeGate, MemSource};
use std::alloc::{AllocError, Global};
use std::sync::Wait;
use std::test::Fail;
use std::thread;
use std::thread::{Threads, join};

const MANY: u64 = 3000;

/// A file of Beats of two harts in turn.
fn file(alloc: Global) -> Result<Vec<u8>, AllocError> {
    let mut bytes = Vec::from_slice(alloc, b"SMPDIFF\0\x01\0\x02\0\0\0\0\0")?;
    for stamp in 0..MANY {
        let event = Record {
            stamp,
            hart: (stamp % 2) as u8,
            body: Body::Beat,
        };
        if lawful(&event) {
            encode(&event, &mut bytes)?;
        }
    }
    bytes.push(255)?;
    bytes.extend_from_slice(&MANY.to_le_bytes())?;
    Ok(bytes)
}

fn feed_file<R: Wait>(
    rt: &R,
    alloc: Global,
    shared: &SharedRecord,
    mut pass: Pass,
    mut feeds: Vec<Feed>,
    bytes: Vec<u8>,
) -> Option<FeedEnd>
    requires { pass.of ≡ identity shared.now }
{
    let source = MemSource::new(bytes, 100, Vec::new(alloc));
    let Ok(mut probes) = FileProbes::new(alloc, source) else {
        return None;
    };
    let Ok(header) = read_header(&mut probes) else {
        return None;
    };
    if usize::from(header.harts) != feeds.len() {
        return None;
    }
    let gate = FreeGate;
    Some(feed(rt, shared, &gate, &mut probes, &mut feeds, &mut pass))
}

/// What was taken so far: the sum of the stamps, and whether the end came.
fn take_one(take: &mut Take, sum: u64, over: bool) -> (u64, bool) {
    if over {
        return (sum, true);
    }
    match take.pop() {
        Pop::Empty => (sum, false),
        Pop::Item(event) => {
            if event.hart == 255 {
                return (sum, true);
            }
            (sum.wrapping_add(event.stamp), false)
        }
    }
}

/// Takes from both queues in turn. It gives up at last, so that a feed that fails ends the test.
fn take_both(first: &mut Take, second: &mut Take) -> (u64, u64) {
    let mut a = (0, false);
    let mut b = (0, false);
    for _ in 0..50_000_000_u64 {
        a = take_one(first, a.0, a.1);
        b = take_one(second, b.0, b.1);
        if a.1 && b.1 {
            break;
        }
        thread::yield_now();
    }
    (a.0, b.0)
}

fn carry<R: Threads + Wait + Sync>(
    rt: &R,
    alloc: Global,
    shared: &SharedRecord,
    pass: Pass,
    bytes: Vec<u8>,
) -> Result<(Option<FeedEnd>, (u64, u64)), AllocError>
    requires { pass.of ≡ identity shared.now }
{
    let (f, mut first) = pair(alloc)?;
    let (g, mut second) = pair(alloc)?;
    let feeds = vec![in alloc; f, g]?;
    Ok(join(
        rt,
        move || -> Option<FeedEnd>
            requires { pass.of ≡ identity shared.now }
        { feed_file(rt, alloc, shared, pass, feeds, bytes) },
        move || -> (u64, u64) { take_both(&mut first, &mut second) },
    ))
}

#[test]
fn carries_all_records_and_their_ends(rt: HostRuntime) -> Result<(), Fail> {
    let bytes = file(rt.alloc())?;
    let (shared, mut passes) = SharedRecord::new(rt.alloc(), 1)?;
    let Some(pass) = passes.pop() else {
        panic!(rt; "there is no pass");
    };
    let (end, sums) = carry(&rt, rt.alloc(), &shared, pass, bytes)?;
    assert_eq!(rt; end, Some(FeedEnd::Whole));
    assert_eq!(rt; sums, (1499 * 1500, 1500 * 1500));
    Ok(())
}
