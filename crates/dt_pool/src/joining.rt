//! What the joined threads left, and the answer that it comes to.
ghost use Rattle.std.specs.Prelude.{◌≡◌, ◌≤◌, ◌+◌, ◌++◌, ◌∷◌, [], ℕ, Bool, List, Option, All, IfOk, OnOk, map, true, vec_len};
ghost use Rattle.std.specs.List.{flat_map};
ghost use Rattle.dt_record.specs.declared.records.Record.{Record};
ghost use Rattle.dt_record.specs.declared.streams.Next.{Next};
ghost use Rattle.dt_record.specs.Streams.{Progress};
ghost use Rattle.dt_reading.specs.Reading.{AreStreamed};
ghost use Rattle.dt_pass.specs.Checked.{IsChecked, IsCheckOf};
ghost use Rattle.dt_shared.specs.Records.{identity, pass_count};
ghost use Rattle.dt_joined.specs.Ends.{AreJoinedHarts};
ghost use Rattle.dt_worker.specs.Ends.{has_finished};
ghost use Rattle.dt_pool.specs.Joining.{AreSameFeeds, HaveRun, IsMet, IsPaired};

use dt_feed::popped_end_means_all;
use dt_joined::{conclude, joined_harts_are_few, joined_harts_are_judged};
use dt_lane::HartEnd;
use dt_queue::{Feed, Take, meet};
use dt_shared::{Pass, SharedRecord};
use dt_verdict::Checked;
use dt_worker::WorkerEnd;
use std::alloc::{AllocError, Global};

/// What a run comes to whose feed was whole. An `Err` is want of memory, here or of a worker.
pub(crate) fn answer(
    alloc: Global,
    harts: u8,
    shared: SharedRecord,
    ends: Vec<WorkerEnd>,
    mut feeds: Vec<Feed>,
    pass: Pass,
) -> Result<Checked, AllocError>
    requires few_harts { harts ≤ 8 }
    requires count { pass_count shared ≡ vec_len ends + 1 }
    requires run { (image : List ℕ) × (wide : Bool) × (told : Option (List Next)) × (p : Progress)
        × HaveRun image wide harts (identity shared) told p feeds.items ends.items pass }
    ensures { IfOk result (λ checked. (image : List ℕ) (wide : Bool) (told : Option (List Next)) (p : Progress)
        → HaveRun image wide harts (identity shared) told p feeds.items ends.items pass → IsCheckOf image told p checked) }
{
    popped_end_means_all();
    let mut passes = Vec::new(alloc);
    let of_harts = gather(alloc, ends, &mut feeds, &mut passes)?;
    passes.push(pass)?;
    conclude_closed(alloc, harts, shared, passes, &of_harts)
}

/// Takes the ends of all workers apart, and brings their queues together with those that were fed. It
/// answers what came of each hart. An `Err` is want of memory, here or of a worker.
fn gather(
    alloc: Global,
    ends: Vec<WorkerEnd>,
    feeds: &mut Vec<Feed>,
    passes: &mut Vec<Pass>,
) -> Result<Vec<HartEnd>, AllocError>
    requires paired { All (λ e. All (IsPaired feeds.old.items) e.takes.items) ends.items }
    requires no_passes { passes.old.items ≡ [] }
    ensures finished { OnOk result (All (λ e. has_finished e ≡ true) ends.items) }
    ensures met { OnOk result (All (λ e. All (IsMet feeds.old.items) e.takes.items) ends.items) }
    ensures passes { OnOk result (passes.new.items ≡ map (λ e. e.pass) ends.items) }
    ensures harts { IfOk result (λ harts. harts.items ≡ flat_map (λ e. e.harts.items) ends.items) }
{
    let mut harts = Vec::new(alloc);
    for end in ends {
        if end.refused || end.stopped {
            return Err(AllocError);
        }
        let WorkerEnd {
            pass,
            takes,
            harts: mut own,
            ..
        } = end;
        meet_all(feeds, takes);
        passes.push(pass)?;
        harts.append(&mut own)?;
    }
    Ok(harts)
}

/// Brings the ends of queues together with those that were fed.
fn meet_all(feeds: &mut Vec<Feed>, takes: Vec<(u8, Take)>)
    requires paired { All (IsPaired feeds.old.items) takes.items }
    ensures same { AreSameFeeds feeds.old.items feeds.new.items }
    ensures met { All (IsMet feeds.old.items) takes.items }
{
    for (hart, mut take) in takes {
        meet(&mut feeds[usize::from(hart)], &mut take);
    }
}

/// Closes the history of the shared record, and concludes from it.
fn conclude_closed(
    alloc: Global,
    harts: u8,
    shared: SharedRecord,
    passes: Vec<Pass>,
    ends: &[HartEnd],
) -> Result<Checked, AllocError>
    requires few_harts { harts ≤ 8 }
    requires of_this { All (λ p. p.of ≡ identity shared) passes.items }
    requires complete { vec_len passes ≡ pass_count shared }
    requires joined { (image : List ℕ) × (wide : Bool) × (file : List Record)
        × AreStreamed harts file × AreJoinedHarts image wide harts file passes.items ends.now }
    ensures { IfOk result (λ checked. (image : List ℕ) (wide : Bool) (file : List Record) → AreStreamed harts file
        → AreJoinedHarts image wide harts file passes.items ends.now → IsChecked image wide harts file checked) }
{
    joined_harts_are_judged();
    joined_harts_are_few();
    let Ok(_) = shared.close(passes) else {
        unreachable!();
    };
    conclude(alloc, harts, ends)
}
