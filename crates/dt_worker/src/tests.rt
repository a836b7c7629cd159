ghost use Rattle.std.specs.Prelude.{◌≡◌, ◌<◌, ◌≤◌, [], IfOk};
ghost use Rattle.dt_queue.specs.Queue.{taken};
ghost use Rattle.dt_shared.specs.Passes.{new_pass};
ghost use Rattle.dt_shared.specs.Records.{identity};

use super::*;
use dt_queue::{Take, pair};
use dt_record::{Body, Image, Record};
use dt_shared::{Pass, SharedRecord};
use dt_source::FreeGate;
use std::alloc::{AllocError, Global};
use std::sync::Wait;
use std::test::Fail;
use std::thread::{Threads, join};

fn beat(stamp: u64, hart: u8) -> Record {
    Record {
        stamp,
        hart,
        body: Body::Beat,
    }
}

// A queue with three records of a hart and the end of the feed.
fn filled(alloc: Global, hart: u8) -> Result<Take, AllocError>
    ensures { IfOk result (λ t. taken t ≡ []) }
{
    let (mut feed, take) = pair(alloc)?;
    for stamp in 1..4 {
        feed.push(beat(stamp, hart));
    }
    feed.push(beat(0, 255));
    Ok(take)
}

fn two_passes(alloc: Global) -> Result<(SharedRecord, Pass, Pass), AllocError>
    ensures first { IfOk result (λ r. r.1 ≡ new_pass (identity r.0) r.1.number) }
    ensures second { IfOk result (λ r. r.2 ≡ new_pass (identity r.0) r.2.number) }
{
    let (shared, mut passes) = SharedRecord::new(alloc, 2)?;
    let (Some(second), Some(first)) = (passes.pop(), passes.pop()) else {
        return Err(AllocError);
    };
    Ok((shared, first, second))
}

// The worker of one of two harts.
fn worker_of(alloc: Global, hart: u8, pass: Pass) -> Result<Worker, AllocError>
    requires hart { hart < 2 }
    requires new { pass ≡ new_pass pass.of pass.number }
    ensures { IfOk result (λ w. w.pass ≡ pass) }
{
    let take = filled(alloc, hart)?;
    let image = Image::of(Vec::new(alloc));
    let takes = vec![in alloc; (hart, take)]?;
    Worker::new(alloc, hart, 2, image, takes, pass, false)
}

fn run_both<R: Threads + Wait + Sync>(
    rt: &R,
    shared: &SharedRecord,
    first: Worker,
    second: Worker,
) -> (WorkerEnd, WorkerEnd)
    requires first { first.pass.of ≡ identity shared.now }
    requires second { second.pass.of ≡ identity shared.now }
{
    join(
        rt,
        move || -> WorkerEnd
            requires { first.pass.of ≡ identity shared.now }
        { first.run(rt, shared, &FreeGate) },
        move || -> WorkerEnd
            requires { second.pass.of ≡ identity shared.now }
        { second.run(rt, shared, &FreeGate) },
    )
}

// All records of the one hart are judged.
fn is_whole(end: &WorkerEnd, hart: u8) -> bool {
    let Some(one) = end.harts.get(0) else {
        return false;
    };
    end.harts.len() == 1
        && end.takes.len() == 1
        && !end.refused
        && !end.stopped
        && one.hart == hart
        && one.taken.len() == 3
        && one.judged == 3
        && one.outcome.failure.is_none()
        && one.notes.is_empty()
}

/// Neither hart can be judged to its end before the other's worker has told its own.
#[test]
fn two_workers_judge_a_hart_each(rt: HostRuntime) -> Result<(), Fail> {
    let alloc = rt.alloc();
    let (shared, first, second) = two_passes(alloc)?;
    let first = worker_of(alloc, 0, first)?;
    let second = worker_of(alloc, 1, second)?;
    let (first, second) = run_both(&rt, &shared, first, second);
    assert!(rt; is_whole(&first, 0));
    assert!(rt; is_whole(&second, 1));
    Ok(())
}

/// The other hart is never told, so that only the stop ends the worker.
#[test]
fn a_worker_ends_at_a_stop(rt: HostRuntime) -> Result<(), Fail> {
    let alloc = rt.alloc();
    let (shared, first, mut second) = two_passes(alloc)?;
    let worker = worker_of(alloc, 0, first)?;
    shared.stop(&mut second);
    let end = worker.run(&rt, &shared, &FreeGate);
    assert!(rt; end.stopped);
    assert!(rt; !end.refused);
    Ok(())
}
