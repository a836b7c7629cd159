//! The threads of the workers, and the feed on the caller's thread.
ghost use Rattle.std.specs.Prelude.{◌≡◌, ◌≢◌, ◌≤◌, ℕ, [], List, Option, All, Some, IfOk, IfSome, true, false, length, map, vec_len, vec_capacity};
ghost use Rattle.dt_record.specs.Streams.{Rose};
ghost use Rattle.dt_verdict.specs.declared.answers.Refusal.TheVariants as refusal;
ghost use Rattle.dt_reading.specs.Reading.{IsRefusedAt, refusal_in, with_header};
ghost use Rattle.dt_reading.specs.Underway.{IsBehindHeader};
ghost use Rattle.dt_feed.specs.Feeding.{IfRefused, IsFeeding};
ghost use Rattle.dt_shared.specs.Records.{identity};
ghost use Rattle.dt_worker.specs.Ends.{IsWorkerEnd};
ghost use Rattle.dt_pool.specs.Starting.{AreEnds, promised};

use dt_feed::{FeedEnd, feed};
use dt_queue::Feed;
use dt_record::Probes;
use dt_shared::{Pass, SharedRecord};
use dt_source::Gate;
use dt_worker::{Worker, WorkerEnd};
use std::alloc::{AllocError, Global};
use std::snapshot::Snapshot;
use std::sync::Wait;
use std::thread;
use std::thread::{Promise, PromisedHandle, Scope, Threads};

/// The promise of a worker's thread.
#[derive(Drop)]
pub(crate) struct Promised(Snapshot<Worker>);

impl Promise<WorkerEnd> for Promised {
    ghost use Rattle.dt_worker.specs.Ends.{IsWorkerEnd};

    ghost kept_by = { λ p end. IsWorkerEnd p.0.value end };
}

type Handle = PromisedHandle<WorkerEnd, Promised>;

/// The workers, and room for the handles and the ends of all, taken before the first start.
#[derive(Drop)]
pub(crate) struct Crew {
    workers: Vec<Worker>,
    handles: Vec<Handle>,
    ends: Vec<WorkerEnd>,
}

/// What the caller's thread has in hand: the stream, the queues that it feeds, its pass, and how the
/// feed ended.
#[derive(Drop)]
pub(crate) struct Feeder<Q: Probes> {
    pub probes: Q,
    pub feeds: Vec<Feed>,
    pub pass: Pass,
    pub end: FeedEnd,
}

/// What a run left. Where a start was refused, the stream is untouched.
#[derive(Drop)]
pub(crate) struct Ran<Q: Probes> {
    started: bool,
    ends: Vec<WorkerEnd>,
    feeder: Feeder<Q>,
}

/// The same without the stream.
#[derive(Drop)]
pub(crate) struct Rest {
    pub started: bool,
    pub ends: Vec<WorkerEnd>,
    pub feeds: Vec<Feed>,
    pub pass: Pass,
    pub end: FeedEnd,
}

pub(crate) fn make_crew(alloc: Global, workers: Vec<Worker>) -> Result<Crew, AllocError>
    ensures workers { IfOk result (λ crew. crew.workers.items ≡ workers.items) }
    ensures handles { IfOk result (λ crew. (crew.handles.items ≡ []) × (vec_len crew.workers ≤ vec_capacity crew.handles)) }
    ensures ends { IfOk result (λ crew. (crew.ends.items ≡ []) × (vec_len crew.workers ≤ vec_capacity crew.ends)) }
{
    let handles = Vec::with_capacity(alloc, workers.len())?;
    let ends = Vec::with_capacity(alloc, workers.len())?;
    Ok(Crew {
        workers,
        handles,
        ends,
    })
}

/// Starts a thread for each worker. False: one was refused.
fn start_all<'s, E, R: Threads + Wait + Sync, G: Gate + Sync>(
    scope: &'s Scope<'s, E>,
    rt: &'s R,
    shared: &'s SharedRecord,
    gate: &'s G,
    workers: Vec<Worker>,
    handles: &mut Vec<Handle>,
) -> bool
    requires of_this { All (λ w. w.pass.of ≡ identity shared.now) workers.items }
    requires empty { handles.old.items ≡ [] }
    requires room { vec_len workers ≤ vec_capacity handles.old }
    ensures started { result ≡ true → map promised handles.new.items ≡ workers.items }
    ensures count { vec_len handles.new ≤ vec_len workers }
{
    for worker in workers {
        let promised = Promised(Snapshot::of(&worker));
        let start = scope.spawn_with(
            promised,
            move || -> WorkerEnd
                requires { worker.pass.of ≡ identity shared.now }
                ensures { IsWorkerEnd worker result }
            { worker.run(rt, shared, gate) },
        );
        match start {
            Ok(handle) => handles.push_reserved(handle),
            Err(_) => return false,
        }
    }
    true
}

fn join_all<R: Threads>(rt: &R, handles: Vec<Handle>, ends: &mut Vec<WorkerEnd>)
    requires empty { ends.old.items ≡ [] }
    requires room { vec_len handles ≤ vec_capacity ends.old }
    ensures { AreEnds (map promised handles.items) ends.new.items }
{
    for handle in handles {
        ends.push_reserved(handle.join(rt));
    }
}

/// Feeds where all workers were started, and else has them stop. All threads are joined.
fn work_within<'s, E, R: Threads + Wait + Sync, Q: Probes + Drop, G: Gate + Sync>(
    scope: &'s Scope<'s, E>,
    rt: &'s R,
    shared: &'s SharedRecord,
    gate: &'s G,
    crew: Crew,
    mut feeder: Feeder<Q>,
) -> Ran<Q>
    requires of_this { All (λ w. w.pass.of ≡ identity shared.now) crew.workers.items }
    requires handles { (crew.handles.items ≡ []) × (vec_len crew.workers ≤ vec_capacity crew.handles) }
    requires ends { (crew.ends.items ≡ []) × (vec_len crew.workers ≤ vec_capacity crew.ends) }
    requires its { feeder.pass.of ≡ identity shared.now }
    requires behind { let p = Q.progress feeder.probes in IsBehindHeader (length feeder.feeds.items) p.wide p }
    ensures ends { result.started ≡ true → AreEnds crew.workers.items result.ends.items }
    ensures fed { result.started ≡ true → let wide = (Q.progress feeder.probes).wide in
        let told = with_header (length feeder.feeds.items) wide (Q.left feeder.probes) in
        IsFeeding result.feeder.end told (Q.progress result.feeder.probes) wide feeder.feeds.items result.feeder.feeds.items }
    ensures refused { let told = with_header (length feeder.feeds.items) (Q.progress feeder.probes).wide (Q.left feeder.probes) in
        result.started ≡ true → IfRefused result.feeder.end (λ r. r ≢ refusal.ReadFault → r ≢ refusal.OutOfMemory
        → IfSome told (λ answers. refusal_in answers ≡ Some r)) }
    ensures refused_at { result.started ≡ true → IfRefused result.feeder.end (λ r. IsRefusedAt (Q.progress result.feeder.probes) r) }
    ensures fault { result.started ≡ true → result.feeder.end ≡ FeedEnd.Refused refusal.ReadFault
        → Rose (Q.faults feeder.probes) (Q.faults result.feeder.probes) }
    ensures needed { result.started ≡ true → result.feeder.end ≡ FeedEnd.Refused refusal.ReadFault
        → (bytes : Option (List ℕ)) → Q.has_origin feeder.probes bytes → Q.leaves_open result.feeder.probes bytes }
    ensures pass { let pass = result.feeder.pass in
        pass ≡ record feeder.pass { stopped = pass.stopped; saw_stop = pass.saw_stop } }
    ensures untouched { result.started ≡ false → result.feeder.probes ≡ feeder.probes }
    ensures never_falls { Q.faults feeder.probes ≤ Q.faults result.feeder.probes }
    ensures same_lent { Q.lent result.feeder.probes ≡ Q.lent feeder.probes }
{
    let Crew {
        workers,
        mut handles,
        mut ends,
    } = crew;
    if start_all(scope, rt, shared, gate, workers, &mut handles) {
        feeder.end = feed(
            rt,
            shared,
            gate,
            &mut feeder.probes,
            &mut feeder.feeds,
            &mut feeder.pass,
        );
        join_all(rt, handles, &mut ends);
        return Ran {
            started: true,
            ends,
            feeder,
        };
    }
    shared.stop(&mut feeder.pass);
    join_all(rt, handles, &mut ends);
    Ran {
        started: false,
        ends,
        feeder,
    }
}

/// Runs all workers in threads of their own, and the feed on this one.
pub(crate) fn run_all<R: Threads + Wait + Sync, Q: Probes + Drop, G: Gate + Sync>(
    rt: &R,
    shared: &SharedRecord,
    gate: &G,
    crew: Crew,
    feeder: Feeder<Q>,
) -> Ran<Q>
    requires of_this { All (λ w. w.pass.of ≡ identity shared.now) crew.workers.items }
    requires handles { (crew.handles.items ≡ []) × (vec_len crew.workers ≤ vec_capacity crew.handles) }
    requires ends { (crew.ends.items ≡ []) × (vec_len crew.workers ≤ vec_capacity crew.ends) }
    requires its { feeder.pass.of ≡ identity shared.now }
    requires behind { let p = Q.progress feeder.probes in IsBehindHeader (length feeder.feeds.items) p.wide p }
    ensures ends { result.started ≡ true → AreEnds crew.workers.items result.ends.items }
    ensures fed { result.started ≡ true → let wide = (Q.progress feeder.probes).wide in
        let told = with_header (length feeder.feeds.items) wide (Q.left feeder.probes) in
        IsFeeding result.feeder.end told (Q.progress result.feeder.probes) wide feeder.feeds.items result.feeder.feeds.items }
    ensures refused { let told = with_header (length feeder.feeds.items) (Q.progress feeder.probes).wide (Q.left feeder.probes) in
        result.started ≡ true → IfRefused result.feeder.end (λ r. r ≢ refusal.ReadFault → r ≢ refusal.OutOfMemory
        → IfSome told (λ answers. refusal_in answers ≡ Some r)) }
    ensures refused_at { result.started ≡ true → IfRefused result.feeder.end (λ r. IsRefusedAt (Q.progress result.feeder.probes) r) }
    ensures fault { result.started ≡ true → result.feeder.end ≡ FeedEnd.Refused refusal.ReadFault
        → Rose (Q.faults feeder.probes) (Q.faults result.feeder.probes) }
    ensures needed { result.started ≡ true → result.feeder.end ≡ FeedEnd.Refused refusal.ReadFault
        → (bytes : Option (List ℕ)) → Q.has_origin feeder.probes bytes → Q.leaves_open result.feeder.probes bytes }
    ensures pass { let pass = result.feeder.pass in
        pass ≡ record feeder.pass { stopped = pass.stopped; saw_stop = pass.saw_stop } }
    ensures untouched { result.started ≡ false → result.feeder.probes ≡ feeder.probes }
    ensures never_falls { Q.faults feeder.probes ≤ Q.faults result.feeder.probes }
    ensures same_lent { Q.lent result.feeder.probes ≡ Q.lent feeder.probes }
{
    thread::scope(
        thread::scope_env(),
        rt,
        move |scope| -> Ran<Q>
            requires of_this { All (λ w. w.pass.of ≡ identity shared.now) crew.workers.items }
            requires handles { (crew.handles.items ≡ []) × (vec_len crew.workers ≤ vec_capacity crew.handles) }
            requires ends { (crew.ends.items ≡ []) × (vec_len crew.workers ≤ vec_capacity crew.ends) }
            requires its { feeder.pass.of ≡ identity shared.now }
            requires behind { let p = Q.progress feeder.probes in IsBehindHeader (length feeder.feeds.items) p.wide p }
        { work_within(scope, rt, shared, gate, crew, feeder) },
    )
}

/// What a run left, with the stream apart.
pub(crate) fn into_parts<Q: Probes>(ran: Ran<Q>) -> (Q, Rest)
    ensures probes { result.0 ≡ ran.feeder.probes }
    ensures started { result.1.started ≡ ran.started }
    ensures ends { result.1.ends.items ≡ ran.ends.items }
    ensures feeds { result.1.feeds.items ≡ ran.feeder.feeds.items }
    ensures pass { result.1.pass ≡ ran.feeder.pass }
    ensures end { result.1.end ≡ ran.feeder.end }
{
    let Ran {
        started,
        ends,
        feeder,
    } = ran;
    let Feeder {
        probes,
        feeds,
        pass,
        end,
    } = feeder;
    let rest = Rest {
        started,
        ends,
        feeds,
        pass,
        end,
    };
    (probes, rest)
}

/// Gives back what was lent.
pub(crate) fn given_back<Q>(lent: Q) -> Q
    ensures { result ≡ lent }
{
    lent
}
