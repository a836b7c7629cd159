ghost use Rattle.std.specs.Prelude.{◌≡◌, ◌<◌, All, IfOk, List};
ghost use Rattle.dt_record.specs.declared.writes.Note.{Note};
ghost use mathlib.Core.List.{IsPrefix};
ghost use Rattle.dt_shared.specs.Entries.{notes_in};
ghost use Rattle.dt_shared.specs.Records.{identity};

use super::*;
use dt_record::Note;
use std::alloc::{AllocError, Global};
use std::sync::Wait;
use std::test::Fail;
use std::thread;
use std::thread::{Threads, join};

const ROUNDS: u64 = 10;

const ROUND: u64 = 100;

const FIRST: Note = Note::Mark { hart: 0, stamp: 5 };

const SECOND: Note = Note::Mark { hart: 1, stamp: 7 };

// A record and its two passes.
fn two_passes(alloc: Global) -> Result<(SharedRecord, Pass, Pass), AllocError>
    ensures { IfOk result (λ r. (r.1.of ≡ identity r.0) × (r.2.of ≡ identity r.0)) }
{
    let (shared, mut passes) = SharedRecord::new(alloc, 2)?;
    let (Some(second), Some(first)) = (passes.pop(), passes.pop()) else {
        return Err(AllocError);
    };
    Ok((shared, first, second))
}

#[test]
#[tactic(auto, using(crate::proofs::Histories::prefix_none))]
fn a_look_shows_the_notes_of_both_passes(rt: HostRuntime) -> Result<(), Fail> {
    let (shared, mut first, mut second) = two_passes(rt.alloc())?;
    shared.append(&rt, &mut first, &mut vec![in rt.alloc(); FIRST]?)?;
    let mut notes = vec![in rt.alloc(); SECOND]?;
    shared.append(&rt, &mut second, &mut notes)?;
    assert_eq!(rt; notes.len(), 0);
    let mut replica = Replica::new(rt.alloc(), 2);
    assert_eq!(rt; replica.least_mark(), Some(0));
    shared.look(&rt, &mut first, &mut replica)?;
    assert_eq!(rt; replica.notes(), [FIRST, SECOND].as_slice());
    assert_eq!(rt; replica.least_mark(), Some(5));
    Ok(())
}

#[test]
fn a_record_closes_with_all_its_passes(rt: HostRuntime) -> Result<(), Fail> {
    let (shared, mut first, mut second) = two_passes(rt.alloc())?;
    shared.append(&rt, &mut first, &mut vec![in rt.alloc(); FIRST]?)?;
    shared.append(&rt, &mut second, &mut vec![in rt.alloc(); SECOND]?)?;
    let Err((shared, mut passes)) = shared.close(vec![in rt.alloc(); first]?) else {
        panic!(rt; "a pass is missing");
    };
    passes.push(second)?;
    let Ok(history) = shared.close(passes) else {
        panic!(rt; "no pass is missing");
    };
    let expected = [
        Entry {
            pass: 0,
            note: FIRST,
        },
        Entry {
            pass: 1,
            note: SECOND,
        },
    ];
    assert_eq!(rt; history.as_slice(), expected.as_slice());
    Ok(())
}

#[test]
fn a_pass_sees_that_another_has_stopped(rt: HostRuntime) -> Result<(), Fail> {
    let (shared, mut first, mut second) = two_passes(rt.alloc())?;
    assert!(rt; !shared.stopped(&mut first));
    shared.stop(&mut second);
    assert!(rt; shared.stopped(&mut first));
    Ok(())
}

fn wait_for_stop<R: Wait>(rt: &R, shared: &SharedRecord, mut pass: Pass)
    requires { pass.of ≡ identity shared.now }
{
    for _ in rt.forever() {
        if shared.stopped(&mut pass) {
            return;
        }
        thread::yield_now();
    }
}

fn stop_one<R: Threads + Wait + Sync>(rt: &R, shared: &SharedRecord, mut first: Pass, second: Pass)
    requires first { first.of ≡ identity shared.now }
    requires second { second.of ≡ identity shared.now }
{
    join(
        rt,
        move ||
            requires { second.of ≡ identity shared.now }
        { wait_for_stop(rt, shared, second) },
        move ||
            requires { first.of ≡ identity shared.now }
        { shared.stop(&mut first) },
    );
}

#[test]
fn a_stop_is_seen_in_another_thread(rt: HostRuntime) -> Result<(), Fail> {
    let (shared, first, second) = two_passes(rt.alloc())?;
    stop_one(&rt, &shared, first, second);
    Ok(())
}

// Appends a hundred notes, one at a time.
fn append_round<R: Wait>(
    rt: &R,
    alloc: Global,
    shared: &SharedRecord,
    pass: &mut Pass,
    hart: u8,
    round: u64,
) -> Result<(), AllocError>
    requires own { pass.old.of ≡ identity shared.now }
    requires small { round < 1000 }
    ensures own { pass.new.of ≡ identity shared.now }
    ensures seen { (copy : List Note) → IsPrefix copy (notes_in pass.old.seen) → IsPrefix copy (notes_in pass.new.seen) }
{
    for n in 0..ROUND {
        let stamp = round * ROUND + n;
        let mut notes = vec![in alloc; Note::Mark { hart, stamp }]?;
        shared.append(rt, pass, &mut notes)?;
    }
    Ok(())
}

#[tactic(auto, using(crate::proofs::Histories::prefix_none))]
fn work<R: Wait>(
    rt: &R,
    alloc: Global,
    shared: &SharedRecord,
    mut pass: Pass,
    hart: u8,
) -> Result<Pass, AllocError>
    requires { pass.of ≡ identity shared.now }
    ensures { IfOk result (λ p. p.of ≡ identity shared.now) }
{
    let mut replica = Replica::new(alloc, 2);
    for round in 0..ROUNDS {
        append_round(rt, alloc, shared, &mut pass, hart, round)?;
        shared.look(rt, &mut pass, &mut replica)?;
    }
    Ok(pass)
}

fn both_work<R: Threads + Wait + Sync>(
    rt: &R,
    alloc: Global,
    shared: &SharedRecord,
    first: Pass,
    second: Pass,
) -> Result<Vec<Pass>, AllocError>
    requires first { first.of ≡ identity shared.now }
    requires second { second.of ≡ identity shared.now }
    ensures { IfOk result (λ passes. All (λ p. p.of ≡ identity shared.now) passes.items) }
{
    let (first, second) = join(
        rt,
        move || -> Result<Pass, AllocError>
            requires { first.of ≡ identity shared.now }
            ensures { IfOk result (λ p. p.of ≡ identity shared.entry.now) }
        { work(rt, alloc, shared, first, 0) },
        move || -> Result<Pass, AllocError>
            requires { second.of ≡ identity shared.now }
            ensures { IfOk result (λ p. p.of ≡ identity shared.entry.now) }
        { work(rt, alloc, shared, second, 1) },
    );
    Ok(vec![in alloc; first?, second?]?)
}

fn own_in_order(history: &[Entry], pass: u8) -> bool {
    let own = history.iter().filter(|entry| entry.pass == pass);
    let expected = (0..ROUNDS * ROUND).map(|stamp| Note::Mark { hart: pass, stamp });
    own.map(|entry| entry.note).eq(expected)
}

#[test]
fn two_threads_append_a_thousand_notes_each(rt: HostRuntime) -> Result<(), Fail> {
    let (shared, first, second) = two_passes(rt.alloc())?;
    let passes = both_work(&rt, rt.alloc(), &shared, first, second)?;
    let Ok(history) = shared.close(passes) else {
        panic!(rt; "no pass is missing");
    };
    assert_eq!(rt; history.len(), 2000);
    assert!(rt; own_in_order(history.as_slice(), 0));
    assert!(rt; own_in_order(history.as_slice(), 1));
    Ok(())
}
