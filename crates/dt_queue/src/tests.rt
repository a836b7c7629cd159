ghost use Rattle.std.specs.Prelude.{◌≡◌};
ghost use Rattle.dt_queue.specs.Queue.{feed_queue, take_queue, ArePair};

use super::*;
use dt_record::{Body, Record};
use std::sync::Wait;
use std::test::Fail;
use std::thread::{Threads, join};
use std::{hint, thread};

const MANY: u64 = 10_000;

fn beat(stamp: u64) -> Record {
    Record {
        stamp,
        hart: 0,
        body: Body::Beat,
    }
}

#[test]
fn holds_256_records_and_gives_them_in_order(rt: HostRuntime) -> Result<(), Fail> {
    let (mut feed, mut take) = pair(rt.alloc())?;
    for stamp in 0..256 {
        assert_eq!(rt; feed.push(beat(stamp)), Push::Done);
    }
    assert_eq!(rt; feed.push(beat(256)), Push::Full(beat(256)));
    for stamp in 0..256 {
        assert_eq!(rt; take.pop(), Pop::Item(beat(stamp)));
    }
    assert_eq!(rt; take.pop(), Pop::Empty);
    Ok(())
}

#[test]
fn meet_counts_what_is_left(rt: HostRuntime) -> Result<(), Fail> {
    let (mut feed, mut take) = pair(rt.alloc())?;
    feed.push(beat(1));
    feed.push(beat(2));
    feed.push(beat(3));
    take.pop();
    assert_eq!(rt; meet(&mut feed, &mut take), 2);
    assert_eq!(rt; take.pop(), Pop::Item(beat(2)));
    Ok(())
}

fn push_waiting<R: Wait>(rt: &R, feed: &mut Feed, event: Record)
    ensures { feed_queue feed.new ≡ feed_queue feed.old }
{
    for _ in rt.forever() {
        if feed.push(event) == Push::Done {
            return;
        }
        thread::yield_now();
    }
}

fn feed_many<R: Wait>(rt: &R, mut feed: Feed) -> Feed
    ensures { feed_queue result ≡ feed_queue feed }
{
    for stamp in 0..MANY {
        push_waiting(rt, &mut feed, beat(stamp));
    }
    feed
}

fn work_slowly() {
    for _ in 0..50 {
        hint::spin_loop();
    }
}

fn pop_waiting<R: Wait>(rt: &R, take: &mut Take) -> Record
    ensures { take_queue take.new ≡ take_queue take.old }
{
    for _ in rt.forever() {
        if let Pop::Item(event) = take.pop() {
            return event;
        }
        thread::yield_now();
    }
    unreachable!()
}

// The number of the first record that is not the one that was fed.
fn take_many<R: Wait>(rt: &R, mut take: Take) -> (Take, u64)
    ensures { take_queue result.0 ≡ take_queue take }
{
    for stamp in 0..MANY {
        if pop_waiting(rt, &mut take) != beat(stamp) {
            return (take, stamp);
        }
        work_slowly();
    }
    (take, MANY)
}

// How many records came in order, and how many are left.
fn carry<R: Threads + Wait + Sync>(rt: &R, feed: Feed, take: Take) -> (u64, usize)
    requires { ArePair feed take }
{
    let (mut feed, (mut take, in_order)) = join(
        rt,
        move || -> Feed
            ensures { feed_queue result ≡ feed_queue feed }
        { feed_many(rt, feed) },
        move || -> (Take, u64)
            ensures { take_queue result.0 ≡ take_queue take }
        { take_many(rt, take) },
    );
    (in_order, meet(&mut feed, &mut take))
}

#[test]
fn carries_ten_thousand_records_between_threads(rt: HostRuntime) -> Result<(), Fail> {
    let (feed, take) = pair(rt.alloc())?;
    assert_eq!(rt; carry(&rt, feed, take), (MANY, 0));
    Ok(())
}
