ghost use Rattle.std.specs.Prelude.{◌≡◌, ◌≢◌, ◌<◌, ◌≤◌, ◌++◌, [], ◌∷◌, ℕ, List, Option, Some, IfSome, true, false, length, vec_len, if◌then◌else◌};
ghost use Rattle.dt_record.specs.declared.records.Record.{Record};
ghost use Rattle.dt_record.specs.Keys.{records_of};
ghost use Rattle.dt_record.specs.Streams.{Rose};
ghost use Rattle.dt_verdict.specs.declared.answers.Refusal.TheVariants as refusal;
ghost use Rattle.dt_intake.specs.Intakes.{is_feed_end};
ghost use Rattle.dt_queue.specs.Queue.{fed, feed_queue};
ghost use Rattle.dt_reading.specs.Reading.{IsRefusedAt, refusal_in, with_header};
ghost use Rattle.dt_reading.specs.Underway.{IsBehindHeader};
ghost use Rattle.dt_shared.specs.Records.{identity};
ghost use Rattle.dt_feed.specs.Feeding.{AreFed, HasGone, IfRefused, IsFeeding, ends_of, feed_end, has_stopped, one_at};

use crossbeam_utils::Backoff;
use dt_queue::{Feed, Push};
use dt_record::{Body, Next, Probes, Record};
use dt_shared::{Pass, SharedRecord};
use dt_source::{Gate, GateEvent};
use dt_verdict::Refusal;
use std::sync::Wait;

/// How a feed ended.
#[derive(Clone, Copy, Debug, PartialEq, Eq)]
pub enum FeedEnd {
    /// All records came, and each queue has its hart's and the end.
    Whole,
    /// The stream ended in this way. Its pass has stopped.
    Refused(Refusal),
    /// Some pass has stopped while a queue was full.
    Stopped,
}

/// The end of a feed. No stream has a record of this hart.
fn feed_end() -> Record
    ensures is { result ≡ feed_end }
    ensures is_end { is_feed_end result ≡ true }
{
    Record {
        stamp: 0,
        hart: 255,
        body: Body::Beat,
    }
}

/// Pushes a record, and waits for a place. False: some pass has stopped, and nothing was pushed.
fn push_waiting<R: Wait>(
    rt: &R,
    shared: &SharedRecord,
    pass: &mut Pass,
    feed: &mut Feed,
    event: Record,
) -> bool
    requires of_this { pass.old.of ≡ identity shared.now }
    ensures queue { feed_queue feed.new ≡ feed_queue feed.old }
    ensures pushed { fed feed.new ≡ fed feed.old ++ (if result then event ∷ [] else []) }
    ensures saw_stop { result ≡ false → pass.new.saw_stop ≡ true }
    ensures same { pass.new ≡ record pass.old { saw_stop = pass.new.saw_stop } }
{
    let backoff = Backoff::new();
    for _ in rt.forever() {
        if feed.push(event) == Push::Done {
            return true;
        }
        if shared.stopped(pass) {
            return false;
        }
        backoff.snooze();
    }
    unreachable!()
}

/// Pushes a record into the queue of a hart.
fn feed_to<R: Wait>(
    rt: &R,
    shared: &SharedRecord,
    pass: &mut Pass,
    feeds: &mut Vec<Feed>,
    hart: usize,
    event: Record,
) -> bool
    requires of_this { pass.old.of ≡ identity shared.now }
    requires within { hart < vec_len feeds.old }
    ensures pushed { AreFed (one_at hart (if result then event ∷ [] else [])) feeds.old.items feeds.new.items }
    ensures saw_stop { result ≡ false → pass.new.saw_stop ≡ true }
    ensures same { pass.new ≡ record pass.old { saw_stop = pass.new.saw_stop } }
{
    push_waiting(rt, shared, pass, &mut feeds[hart], event)
}

/// Pushes the end of the feed into each queue, in order. It answers into how many it was pushed.
fn feed_ends<R: Wait>(
    rt: &R,
    shared: &SharedRecord,
    pass: &mut Pass,
    feeds: &mut Vec<Feed>,
) -> usize
    requires of_this { pass.old.of ≡ identity shared.now }
    ensures within { result ≤ vec_len feeds.old }
    ensures pushed { AreFed (ends_of result) feeds.old.items feeds.new.items }
    ensures saw_stop { result < vec_len feeds.old → pass.new.saw_stop ≡ true }
    ensures same { pass.new ≡ record pass.old { saw_stop = pass.new.saw_stop } }
{
    let harts = feeds.len();
    for hart in 0..harts {
        if !feed_to(rt, shared, pass, feeds, hart, feed_end()) {
            return hart;
        }
    }
    harts
}

/// Pushes the records of a stream, each into its hart's queue. Whole: the stream came to its end.
fn feed_records<R: Wait, P: Probes, G: Gate>(
    rt: &R,
    shared: &SharedRecord,
    gate: &G,
    probes: &mut P,
    feeds: &mut Vec<Feed>,
    pass: &mut Pass,
) -> FeedEnd
    requires of_this { pass.old.of ≡ identity shared.now }
    requires behind { let p = P.progress probes.old in IsBehindHeader (length feeds.old.items) p.wide p }
    ensures pushed { let wide = (P.progress probes.old).wide in let harts = length feeds.old.items in
        let told = with_header harts wide (P.left probes.old) in
        (given : List Record) × HasGone result told (P.progress probes.new) harts wide given
        × AreFed (λ k. records_of k given) feeds.old.items feeds.new.items }
    ensures refused { let told = with_header (length feeds.old.items) (P.progress probes.old).wide (P.left probes.old) in
        IfRefused result (λ r. r ≢ refusal.ReadFault → r ≢ refusal.OutOfMemory → IfSome told (λ answers. refusal_in answers ≡ Some r)) }
    ensures refused_at { IfRefused result (λ r. IsRefusedAt (P.progress probes.new) r) }
    ensures fault { result ≡ FeedEnd.Refused refusal.ReadFault → Rose (P.faults probes.old) (P.faults probes.new) }
    ensures needed { result ≡ FeedEnd.Refused refusal.ReadFault
        → (bytes : Option (List ℕ)) → P.has_origin probes.old bytes → P.leaves_open probes.new bytes }
    ensures never_falls { P.faults probes.old ≤ P.faults probes.new }
    ensures same_lent { P.lent probes.new ≡ P.lent probes.old }
    ensures saw_stop { result ≡ FeedEnd.Stopped → pass.new.saw_stop ≡ true }
    ensures same { pass.new ≡ record pass.old { saw_stop = pass.new.saw_stop } }
{
    let mut n = 0;
    for _ in rt.forever() {
        match probes.next() {
            Next::Event(event) => {
                if !feed_to(rt, shared, pass, feeds, usize::from(event.hart), event) {
                    return FeedEnd::Stopped;
                }
                gate.at(GateEvent::Fed { n });
                n += 1;
            }
            Next::End { .. } => return FeedEnd::Whole,
            Next::Malformed { offset } => return FeedEnd::Refused(Refusal::Malformed { offset }),
            Next::Limit { what, number } => {
                return FeedEnd::Refused(Refusal::Limit { what, number });
            }
            Next::ReadFault => return FeedEnd::Refused(Refusal::ReadFault),
            Next::OutOfMemory => return FeedEnd::Refused(Refusal::OutOfMemory),
            Next::Header { .. } => unreachable!(),
        }
    }
    unreachable!()
}

/// Feeds the records of a stream whose header came, and nothing behind it, to the queues of the
/// harts, each record to its hart's, and behind them the end of the feed to each. It waits for a place
/// where a queue is full, until some pass has stopped. Where the stream is refused, it stops.
///
/// The gate is told of each record that a queue took, by its number among all.
pub fn feed<R: Wait, P: Probes, G: Gate>(
    rt: &R,
    shared: &SharedRecord,
    gate: &G,
    probes: &mut P,
    feeds: &mut Vec<Feed>,
    pass: &mut Pass,
) -> FeedEnd
    requires of_this { pass.old.of ≡ identity shared.now }
    requires behind { let p = P.progress probes.old in IsBehindHeader (length feeds.old.items) p.wide p }
    ensures fed { let wide = (P.progress probes.old).wide in
        let told = with_header (length feeds.old.items) wide (P.left probes.old) in
        IsFeeding result told (P.progress probes.new) wide feeds.old.items feeds.new.items }
    ensures refused { let told = with_header (length feeds.old.items) (P.progress probes.old).wide (P.left probes.old) in
        IfRefused result (λ r. r ≢ refusal.ReadFault → r ≢ refusal.OutOfMemory → IfSome told (λ answers. refusal_in answers ≡ Some r)) }
    ensures refused_at { IfRefused result (λ r. IsRefusedAt (P.progress probes.new) r) }
    ensures fault { result ≡ FeedEnd.Refused refusal.ReadFault → Rose (P.faults probes.old) (P.faults probes.new) }
    ensures needed { result ≡ FeedEnd.Refused refusal.ReadFault
        → (bytes : Option (List ℕ)) → P.has_origin probes.old bytes → P.leaves_open probes.new bytes }
    ensures never_falls { P.faults probes.old ≤ P.faults probes.new }
    ensures same_lent { P.lent probes.new ≡ P.lent probes.old }
    ensures saw_stop { result ≡ FeedEnd.Stopped → pass.new.saw_stop ≡ true }
    ensures same { let stopped = has_stopped result pass.old.stopped in
        pass.new ≡ record pass.old { stopped = stopped; saw_stop = pass.new.saw_stop } }
{
    let harts = feeds.len();
    match feed_records(rt, shared, gate, probes, feeds, pass) {
        FeedEnd::Whole => {
            let ends = feed_ends(rt, shared, pass, feeds);
            if ends < harts {
                return FeedEnd::Stopped;
            }
            FeedEnd::Whole
        }
        FeedEnd::Refused(refusal) => {
            shared.stop(pass);
            FeedEnd::Refused(refusal)
        }
        FeedEnd::Stopped => FeedEnd::Stopped,
    }
}
