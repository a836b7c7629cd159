//! All that a run needs before its first thread: the queues, the shared record and the workers.
ghost use Rattle.std.specs.Prelude.{◌≡◌, ◌<◌, ◌≤◌, ◌+◌, ℕ, [], All, IfOk, OnOk, length, vec_len};
ghost use Rattle.dt_queue.specs.Queue.{taken};
ghost use Rattle.dt_shared.specs.Passes.{new_pass};
ghost use Rattle.dt_shared.specs.Records.{identity, pass_count};
ghost use Rattle.dt_worker.specs.Workers.{AreOfDifferentHarts};
ghost use Rattle.dt_pool.specs.Opening.{AreHands, AreMade, AreOpened, IsGiven};

use dt_queue::{Feed, Take, pair};
use dt_reading::StreamHeader;
use dt_record::Image;
use dt_shared::{Pass, SharedRecord};
use dt_worker::Worker;
use std::alloc::{AllocError, Global};

/// The ends of the queues that one worker takes from, each with the number of its hart.
type Hand = Vec<(u8, Take)>;

/// What a run stands on: the feeder's pass is the last of the shared record.
#[derive(Drop)]
pub(crate) struct Opened {
    pub shared: SharedRecord,
    pub workers: Vec<Worker>,
    pub feeds: Vec<Feed>,
    pub pass: Pass,
}

/// What a file with this header needs, to be judged by so many workers. An `Err` is want of memory.
pub(crate) fn open_run(
    alloc: Global,
    image: &Image,
    header: StreamHeader,
    workers: u8,
) -> Result<Opened, AllocError>
    requires some_hart { 1 ≤ header.harts }
    requires few_harts { header.harts ≤ 8 }
    requires some_worker { 1 ≤ workers }
    requires few_workers { workers ≤ 8 }
    ensures opened { IfOk result (λ o.
        AreOpened image.now header.wide header.harts (identity o.shared) workers o.feeds.items o.workers.items) }
    ensures pass { IfOk result (λ o. o.pass ≡ new_pass (identity o.shared) workers) }
    ensures count { IfOk result (λ o. pass_count o.shared ≡ workers + 1) }
{
    let (feeds, hands) = make_queues(alloc, header.harts, workers)?;
    let (shared, mut passes) = SharedRecord::new(alloc, workers + 1)?;
    let Some(pass) = passes.pop() else {
        unreachable!();
    };
    let workers = make_workers(alloc, image, header, passes, hands)?;
    Ok(Opened {
        shared,
        workers,
        feeds,
        pass,
    })
}

/// A queue for each hart: the ends that are fed, and what each worker is handed.
fn make_queues(alloc: Global, harts: u8, workers: u8) -> Result<(Vec<Feed>, Vec<Hand>), AllocError>
    requires { 1 ≤ workers }
    ensures { IfOk result (λ made. AreHands workers harts made.0.items made.1.items) }
{
    let mut feeds = Vec::new(alloc);
    let mut hands = empty_hands(alloc, workers)?;
    for hart in 0..harts {
        let (feed, take) = pair(alloc)?;
        feeds.push(feed)?;
        give(&mut hands, hart % workers, hart, take)?;
    }
    Ok((feeds, hands))
}

/// A hand with nothing in it for each worker.
fn empty_hands(alloc: Global, workers: u8) -> Result<Vec<Hand>, AllocError>
    ensures count { IfOk result (λ hands. vec_len hands ≡ workers) }
    ensures empty { IfOk result (λ hands. All (λ hand. hand.items ≡ []) hands.items) }
{
    let mut hands = Vec::new(alloc);
    for _ in 0..workers {
        hands.push(Vec::new(alloc))?;
    }
    Ok(hands)
}

/// Hands one worker the end of a hart's queue.
fn give(hands: &mut Vec<Hand>, worker: u8, hart: u8, take: Take) -> Result<(), AllocError>
    requires { worker < vec_len hands.old }
    ensures { OnOk result (IsGiven worker (hart, take) hands.old.items hands.new.items) }
{
    hands[usize::from(worker)].push((hart, take))?;
    Ok(())
}

/// A worker for each hand, with the pass at its place.
fn make_workers(
    alloc: Global,
    image: &Image,
    header: StreamHeader,
    mut passes: Vec<Pass>,
    mut hands: Vec<Hand>,
) -> Result<Vec<Worker>, AllocError>
    requires some_hart { 1 ≤ header.harts }
    requires few_harts { header.harts ≤ 8 }
    requires few { vec_len passes ≤ 8 }
    requires enough { vec_len passes ≤ vec_len hands }
    requires new { All (λ p. p ≡ new_pass p.of p.number) passes.items }
    requires within { All (λ hand. All (λ t. t.0 < header.harts) hand.items) hands.items }
    requires different { All (λ hand. AreOfDifferentHarts hand.items) hands.items }
    requires untaken { All (λ hand. All (λ t. taken t.1 ≡ []) hand.items) hands.items }
    ensures { IfOk result (λ made. AreMade image.now header.wide header.harts passes.items hands.items made.items) }
{
    let mut made = Vec::new(alloc);
    for number in 0..passes.len() as u8 {
        let pass = passes.remove(0);
        let hand = hands.remove(0);
        let worker = Worker::new(
            alloc,
            number,
            header.harts,
            image.copy()?,
            hand,
            pass,
            header.wide,
        )?;
        made.push(worker)?;
    }
    Ok(made)
}
