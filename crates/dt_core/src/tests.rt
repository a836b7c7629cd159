ghost use Rattle.std.specs.Prelude.{◌≡◌, ◌==◌, length};
ghost use Rattle.std.proofs.Common.{ap, refl};
ghost use Rattle.dt_versions.specs.History.{writes_until};

use crate::{CoreStep, Judgement, Notes, World, step};
use dt_record::{Body, Note, Record, Retire, Write, lawful, write_of};
use std::alloc::{AllocError, Global};
use std::test::Fail;

/// Allows a record where the number of writes up to its cycle is the number of the cycle: the records
/// of cycle 3 pass where the file has three writes in the cycles 0 to 3.
#[derive(Clone, Copy, Drop)]
struct Counted {
    hart: u8,
}

fn count_until(stamp: u64, writes: &[Write]) -> usize
    ensures { result ≡ length (writes_until stamp writes.now) }
{
    writes.iter().filter(|w| w.key.stamp <= stamp).count()
}

impl Judgement for Counted {
    ghost meaning = { record {
      opening = λ h. record { hart = h };
      allows = λ s ws r. length (writes_until r.stamp ws) == r.stamp;
      after = λ s ws r. s;
    } };

    fn start(_alloc: Global, hart: u8) -> Counted {
        Counted { hart }
    }

    fn judge(&mut self, writes: &[Write], event: &Record) -> Result<bool, AllocError> {
        Ok(count_until(event.stamp, writes) as u64 == event.stamp)
    }

    ghost reads_no_later_writes = { λ s ws vs r same. (ap (λ us. length us == r.stamp) same, refl) };
}

const SWAP: Body = Body::Atomic {
    retire: Retire {
        pc: 0x8000_0000,
        bits: 0x0050_0093,
        value: 0,
    },
    paddr: 0x8000_0000,
    width: 8,
    wrote: true,
    new: 7,
};

/// Records by stamp, hart and body.
macro_rules! records {
    ($(($stamp:literal, $hart:literal, $body:expr)),+) => {
        [$(Record { stamp: $stamp, hart: $hart, body: $body }),+]
    };
}

const TWO_BEATS: [Record; 2] = records![(5, 0, Body::Beat), (5, 1, Body::Beat)];

/// One write of each hart, in the cycles 1 to 3, and so three up to the cycles 4 and 5. Hart 0: the
/// third of four, in cycle 4, fails. Hart 1: both pass. Hart 2: the last of four, in cycle 5, fails.
const THREE_HARTS: [Record; 10] = records![
    (0, 2, Body::Beat),
    (1, 0, SWAP),
    (1, 1, Body::Beat),
    (2, 2, SWAP),
    (2, 0, Body::Beat),
    (3, 1, SWAP),
    (3, 2, Body::Beat),
    (4, 0, Body::Beat),
    (4, 0, Body::Beat),
    (5, 2, Body::Beat)
];

/// One write in cycle 1 and two in cycle 2, and so three up to the cycles 2, 3 and 4. Hart 0: the
/// third of five, in cycle 2, fails. Hart 1: the fifth of six, in cycle 4, fails. Its records of cycle
/// 3 pass by the writes that hart 0 makes at its failure and behind it.
const FAILURE_IN_THE_MIDDLE: [Record; 11] = records![
    (0, 0, Body::Beat),
    (0, 1, Body::Beat),
    (1, 0, SWAP),
    (1, 1, Body::Beat),
    (2, 0, SWAP),
    (2, 0, SWAP),
    (3, 1, Body::Beat),
    (3, 0, Body::Beat),
    (3, 1, Body::Beat),
    (4, 1, Body::Beat),
    (4, 1, Body::Beat)
];

#[derive(Clone, Copy, Debug)]
enum Run {
    TwoBeats,
    ThreeHarts,
    FailureInTheMiddle,
}

/// The runs of the schedules, and how many records of each hart are judged in the end: up to its
/// failure, and with it.
const JUDGED: [(Run, [usize; 3]); 2] = [
    (Run::ThreeHarts, [3, 2, 4]),
    (Run::FailureInTheMiddle, [3, 5, 0]),
];

fn file_of(run: Run) -> &'static [Record] {
    match run {
        Run::TwoBeats => &TWO_BEATS,
        Run::ThreeHarts => &THREE_HARTS,
        Run::FailureInTheMiddle => &FAILURE_IN_THE_MIDDLE,
    }
}

fn start(alloc: Global, run: Run) -> Result<World<Counted>, AllocError> {
    match run {
        Run::TwoBeats => World::start(alloc, 2, 2, Vec::from_slice(alloc, &TWO_BEATS)?),
        Run::ThreeHarts => World::start(alloc, 3, 2, Vec::from_slice(alloc, &THREE_HARTS)?),
        Run::FailureInTheMiddle => {
            World::start(alloc, 2, 2, Vec::from_slice(alloc, &FAILURE_IN_THE_MIDDLE)?)
        }
    }
}

fn announce(alloc: Global, worker: u8) -> CoreStep {
    CoreStep::Announce {
        worker,
        extra: Notes::of(Vec::new(alloc)),
    }
}

fn announce_with(alloc: Global, worker: u8, notes: &[Note]) -> Result<CoreStep, AllocError> {
    Ok(CoreStep::Announce {
        worker,
        extra: Notes::of(Vec::from_slice(alloc, notes)?),
    })
}

/// How many records of the hart were judged, where there is such a hart.
fn judged(world: &World<Counted>, hart: u8) -> Option<u32> {
    if hart < world.harts() {
        Some(world.judged(hart))
    } else {
        None
    }
}

fn counts(world: &World<Counted>) -> [Option<u32>; 3] {
    [judged(world, 0), judged(world, 1), judged(world, 2)]
}

fn total(world: &World<Counted>) -> u64 {
    let mut sum: u64 = 0;
    for count in counts(world) {
        sum = sum.saturating_add(u64::from(count.unwrap_or(0)));
    }
    sum
}

#[test]
fn two_beats_of_one_cycle_wait_for_the_end(rt: HostRuntime) -> Result<(), Fail> {
    let alloc = rt.alloc();
    let mut world = start(alloc, Run::TwoBeats)?;
    step(&mut world, CoreStep::Feed)?;
    step(&mut world, CoreStep::Feed)?;
    step(&mut world, CoreStep::Take { hart: 0 })?;
    step(&mut world, CoreStep::Take { hart: 1 })?;
    step(&mut world, announce(alloc, 0))?;
    step(&mut world, announce(alloc, 1))?;
    step(&mut world, CoreStep::Look { worker: 0 })?;
    step(&mut world, CoreStep::Judge { hart: 0 })?;
    assert_eq!(rt; counts(&world), [Some(0), Some(0), None]);
    step(&mut world, CoreStep::Feed)?;
    step(&mut world, announce(alloc, 0))?;
    step(&mut world, announce(alloc, 1))?;
    step(&mut world, CoreStep::Look { worker: 0 })?;
    step(&mut world, CoreStep::Judge { hart: 0 })?;
    assert_eq!(rt; counts(&world), [Some(1), Some(0), None]);
    Ok(())
}

fn next_random(seed: &mut u64) -> u64 {
    *seed = seed
        .wrapping_mul(6_364_136_223_846_793_005)
        .wrapping_add(1_442_695_040_888_963_407);
    *seed >> 33
}

/// A hart or a worker, which a run may have or not.
fn random_number(seed: &mut u64) -> u8 {
    match next_random(seed) % 3 {
        0 => 0,
        1 => 1,
        _ => 2,
    }
}

fn random_step(alloc: Global, seed: &mut u64) -> Result<CoreStep, AllocError> {
    let which = random_number(seed);
    Ok(match next_random(seed) % 6 {
        0 => CoreStep::Feed,
        1 => CoreStep::Take { hart: which },
        2 => announce(alloc, which),
        3 => {
            let cut = next_random(seed) % 6;
            announce_with(alloc, which, &[Note::Cut { hart: which, cut }])?
        }
        4 => CoreStep::Look { worker: which },
        _ => CoreStep::Judge { hart: which },
    })
}

/// Feeds, takes, announces and judges all that is left.
fn finish(alloc: Global, world: &mut World<Counted>) -> Result<(), AllocError> {
    for _ in 0..12 {
        step(world, CoreStep::Feed)?;
    }
    for _ in 0..6 {
        for hart in 0..3 {
            step(world, CoreStep::Take { hart })?;
        }
    }
    for worker in 0..3 {
        step(world, announce(alloc, worker))?;
    }
    for worker in 0..3 {
        step(world, CoreStep::Look { worker })?;
    }
    for _ in 0..6 {
        for hart in 0..3 {
            step(world, CoreStep::Judge { hart })?;
        }
    }
    Ok(())
}

/// All writes of a file, in the order of their keys.
fn all_writes(alloc: Global, file: &[Record]) -> Result<Vec<Write>, AllocError> {
    let mut writes = Vec::new(alloc);
    for (place, event) in file.iter().enumerate() {
        let earlier = file.iter().take(place);
        let seq = earlier.filter(|other| other.hart == event.hart).count();
        if let Ok(seq) = u32::try_from(seq)
            && lawful(event)
            && let Some(w) = write_of(event, seq)
        {
            writes.push(w)?;
        }
    }
    writes.sort_by_key(|w| w.key)?;
    Ok(writes)
}

/// What one hart's records are judged to be over all writes of the file, without a schedule: one
/// after another, up to the first that is not allowed.
fn outcomes_alone(alloc: Global, file: &[Record], hart: u8) -> Result<Vec<bool>, AllocError> {
    let writes = all_writes(alloc, file)?;
    let mut judgement = Counted::start(alloc, hart);
    let mut outcomes = Vec::new(alloc);
    for event in file.iter().filter(|event| event.hart == hart) {
        let allowed = judgement.judge(&writes, event)?;
        outcomes.push(allowed)?;
        if !allowed {
            break;
        }
    }
    Ok(outcomes)
}

/// The hart's outcomes, of which there is none where there is no such hart.
fn outcomes(world: &World<Counted>, hart: u8) -> &[bool] {
    if hart < world.harts() {
        world.outcomes(hart)
    } else {
        &[]
    }
}

/// Whatever the schedule, each record's outcome is that of the judgement alone over all writes of
/// the file: behind a failure none is judged. Some are judged before the end.
#[test]
fn every_schedule_judges_alike(rt: HostRuntime) -> Result<(), Fail> {
    let alloc = rt.alloc();
    let mut seed = 20_261_201;
    for (run, judged) in JUDGED {
        let file = file_of(run);
        let first = outcomes_alone(alloc, file, 0)?;
        let second = outcomes_alone(alloc, file, 1)?;
        let third = outcomes_alone(alloc, file, 2)?;
        let want = [first.as_slice(), second.as_slice(), third.as_slice()];
        assert_eq!(rt; want.map(|outcomes| outcomes.len()), judged, "{run:?}");
        let mut early: u64 = 0;
        for _ in 0..1000 {
            let mut world = start(alloc, run)?;
            for _ in 0..90 {
                let next = random_step(alloc, &mut seed)?;
                step(&mut world, next)?;
            }
            early = early.saturating_add(total(&world));
            finish(alloc, &mut world)?;
            let found = [
                outcomes(&world, 0),
                outcomes(&world, 1),
                outcomes(&world, 2),
            ];
            assert_eq!(rt; found, want, "{run:?}");
        }
        assert!(rt; early > 500, "{run:?}: {early}");
    }
    Ok(())
}
