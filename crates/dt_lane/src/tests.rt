use crate::Lane;
use dt_queue::{Feed, pair};
use dt_record::{Body, Image, Note, Record, Retire};
use dt_source::FreeGate;
use dt_versions::Moments;
use std::alloc::{AllocError, Global};
use std::test::Fail;

const FEED_END: Record = Record {
    stamp: 0,
    hart: 255,
    body: Body::Beat,
};

/// A lane, and the end of its queue that is fed.
#[derive(Drop)]
struct FedLane {
    feed: Feed,
    lane: Lane,
}

fn beat(stamp: u64, hart: u8) -> Record {
    Record {
        stamp,
        hart,
        body: Body::Beat,
    }
}

/// A commit of hart 1 that no memory of zeros allows.
fn commit(stamp: u64) -> Record {
    let retire = Retire {
        pc: 0x8000_0000,
        bits: 0x0050_0093,
        value: 5,
    };
    Record {
        stamp,
        hart: 1,
        body: Body::Commit { retire },
    }
}

fn no_writes(alloc: Global) -> Moments {
    Moments::empty(alloc, Image::of(Vec::new(alloc)))
}

fn push_all(feed: &mut Feed, events: &[Record]) {
    for event in events {
        feed.push(*event);
    }
}

/// A lane whose queue holds these records.
fn fed(alloc: Global, hart: u8, events: &[Record]) -> Result<FedLane, AllocError> {
    let (mut feed, take) = pair(alloc)?;
    push_all(&mut feed, events);
    let lane = Lane::new(alloc, hart, false, take);
    Ok(FedLane { feed, lane })
}

/// Whether something was taken.
fn takes(lane: &mut Lane) -> bool {
    matches!(lane.take_in(0, &FreeGate), Ok(true))
}

/// Whether a record was judged below this least mark.
fn judges(lane: &mut Lane, m: &Moments, least: Option<u64>) -> bool {
    matches!(lane.judge_ready(m, least, 0, &FreeGate), Ok(true))
}

/// What there was to tell.
fn told(alloc: Global, lane: &mut Lane) -> Result<Vec<Note>, AllocError> {
    let mut notes = Vec::new(alloc);
    lane.add_news(&mut notes)?;
    lane.note_told();
    Ok(notes)
}

/// How many records were judged and how many taken, and whether the hart failed.
fn counts(lane: Lane) -> (u32, usize, bool) {
    let (_take, end) = lane.into_end();
    (end.judged, end.taken.len(), end.outcome.failure.is_some())
}

/// Whether the only record of a hart, a Beat at 5, is judged below each of these least marks in turn.
fn judged_below(alloc: Global, hart: u8, marks: [Option<u64>; 3]) -> Result<[bool; 3], AllocError> {
    let m = no_writes(alloc);
    let mut fed = fed(alloc, hart, &[beat(5, hart)])?;
    takes(&mut fed.lane);
    let first = judges(&mut fed.lane, &m, marks[0]);
    let second = judges(&mut fed.lane, &m, marks[1]);
    let third = judges(&mut fed.lane, &m, marks[2]);
    Ok([first, second, third])
}

/// Two harts with a Beat at one cycle each wait for a greater mark of both, or for both ends.
#[test]
fn a_record_at_the_least_mark_waits(rt: HostRuntime) -> Result<(), Fail> {
    let ends = [Some(5), None, None];
    assert_eq!(rt; judged_below(rt.alloc(), 0, ends)?, [false, true, false]);
    assert_eq!(rt; judged_below(rt.alloc(), 1, ends)?, [false, true, false]);
    let marks = [Some(4), Some(5), Some(6)];
    assert_eq!(rt; judged_below(rt.alloc(), 1, marks)?, [false, false, true]);
    Ok(())
}

/// A hart that has failed is judged no further, and takes what comes up to the end of its feed.
#[test]
fn a_hart_that_fails_goes_on_taking(rt: HostRuntime) -> Result<(), Fail> {
    let m = no_writes(rt.alloc());
    let mut fed = fed(rt.alloc(), 1, &[beat(3, 1), commit(4)])?;
    takes(&mut fed.lane);
    assert!(rt; judges(&mut fed.lane, &m, None));
    push_all(&mut fed.feed, &[beat(6, 1), FEED_END, beat(7, 1)]);
    assert!(rt; takes(&mut fed.lane) && !takes(&mut fed.lane));
    assert!(rt; !judges(&mut fed.lane, &m, None));
    assert_eq!(rt; counts(fed.lane), (1, 3, true));
    Ok(())
}

/// A record that cannot come next is kept, and neither it nor one behind it is judged.
#[test]
fn nothing_behind_an_unusable_record_is_judged(rt: HostRuntime) -> Result<(), Fail> {
    let m = no_writes(rt.alloc());
    let mut fed = fed(rt.alloc(), 1, &[beat(5, 1), beat(4, 1), beat(6, 1)])?;
    takes(&mut fed.lane);
    assert!(rt; judges(&mut fed.lane, &m, None));
    assert!(rt; !judges(&mut fed.lane, &m, None));
    assert_eq!(rt; counts(fed.lane), (1, 3, false));
    Ok(())
}

/// A hart without records is done once its End is told.
#[test]
fn a_lane_is_done_once_its_end_is_told(rt: HostRuntime) -> Result<(), Fail> {
    let mut fed = fed(rt.alloc(), 1, &[FEED_END])?;
    takes(&mut fed.lane);
    assert!(rt; fed.lane.has_news() && !fed.lane.is_done());
    let notes = told(rt.alloc(), &mut fed.lane)?;
    assert_eq!(rt; notes.as_slice(), [Note::End { hart: 1 }].as_slice());
    assert_eq!(rt; (fed.lane.is_done(), fed.lane.hart()), (true, 1));
    Ok(())
}
