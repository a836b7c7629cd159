ghost use Rattle.std.specs.Prelude.{◌≡◌, ◌+◌, ◌<◌, ◌≤◌, [], ◌∷◌, ◌++◌, length, IfOk};
ghost use mathlib.Core.List.{IsPrefix};
ghost use Rattle.dt_queue.specs.Queue.{fed, taken, known_free, known_items, feed_queue, take_queue, ArePair};
ghost use Rattle.dt_queue.specs.Answers.{MatchPush, MatchPop, IsItem};

use dt_record::Record;
use rtrb::{Consumer, Producer, PushError, RingBuffer};
use std::alloc::{AllocError, Global};

/// How many records a queue has room for.
const CAPACITY: usize = 256;

/// The end of a queue that is fed. It may move to another thread.
#[derive(Drop)]
pub struct Feed {
    producer: Producer<Record>,
}

/// The end of a queue from which records are taken. It may move to another thread.
#[derive(Drop)]
pub struct Take {
    consumer: Consumer<Record>,
}

/// What became of a record that was pushed.
#[derive(Clone, Copy, Debug, PartialEq, Eq)]
pub enum Push {
    Done,
    /// The queue was full when this end looked. The record comes back.
    Full(Record),
}

/// What was taken.
#[derive(Clone, Copy, Debug, PartialEq, Eq)]
pub enum Pop {
    Item(Record),
    /// The queue was empty when this end looked.
    Empty,
}

/// A queue with room for 256 records: its two ends. An `Err` is want of memory.
pub fn pair(alloc: Global) -> Result<(Feed, Take), AllocError>
    ensures pair { IfOk result (λ q. ArePair q.0 q.1) }
    ensures feed { IfOk result (λ q. (fed q.0 ≡ []) × (known_free q.0 ≡ 256)) }
    ensures take { IfOk result (λ q. (taken q.1 ≡ []) × (known_items q.1 ≡ [])) }
{
    let (producer, consumer) = RingBuffer::new(alloc, CAPACITY)?;
    Ok((Feed { producer }, Take { consumer }))
}

impl Feed {
    /// Puts a record behind all that was fed, or gives it back if this end, after a look, knows of no
    /// free place. That the look sees the newest step of the other end is tested alone.
    pub fn push(&mut self, event: Record) -> Push
        ensures queue { feed_queue self.new ≡ feed_queue self.old }
        ensures fed { MatchPush result (fed self.new ≡ fed self.old ++ event ∷ []) (λ it. (it ≡ event) × (fed self.new ≡ fed self.old)) }
        ensures full { MatchPush result (known_free self.old ≤ known_free self.new + 1) (λ _. known_free self.new ≡ 0) }
        ensures succeeds { 0 < known_free self.old → result ≡ Push.Done }
    {
        match self.producer.push(event) {
            Ok(()) => Push::Done,
            Err(PushError::Full(back)) => Push::Full(back),
        }
    }
}

impl Take {
    /// Takes the oldest record, or answers `Empty` if this end, after a look, knows of none. That the
    /// look sees the newest step of the other end is tested alone.
    pub fn pop(&mut self) -> Pop
        ensures queue { take_queue self.new ≡ take_queue self.old }
        ensures taken { MatchPop result (taken self.new ≡ taken self.old) (λ event. taken self.new ≡ taken self.old ++ event ∷ []) }
        ensures known { MatchPop result (known_items self.new ≡ []) (λ it. IsPrefix (known_items self.old) (it ∷ known_items self.new)) }
        ensures succeeds { 0 < length (known_items self.old) → IsItem result }
    {
        match self.consumer.pop() {
            Ok(event) => Pop::Item(event),
            Err(_) => Pop::Empty,
        }
    }
}

/// Brings the two ends of a queue together, in one thread. It answers how many records are left.
/// Behind the taken ones they make up all that was fed.
pub fn meet(f: &mut Feed, t: &mut Take) -> usize
    requires { ArePair f.old t.old }
    ensures queue { (feed_queue f.new ≡ feed_queue f.old) × (take_queue t.new ≡ take_queue t.old) }
    ensures fed { fed f.new ≡ fed f.old }
    ensures taken { taken t.new ≡ taken t.old }
    ensures left { result ≡ length (known_items t.new) }
    ensures all { taken t.new ++ known_items t.new ≡ fed f.new }
{
    t.consumer.slots_beside(&mut f.producer)
}
