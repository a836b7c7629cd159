ghost use Rattle.std.specs.Prelude.{◌≡◌, ◌≢◌, ◌≤◌, ℕ, List, Option, Err, IfErr, IfOk, IfSome, None, OnOk, Some};
ghost use Rattle.dt_record.specs.Streams.{IsFresh, Rose};
ghost use Rattle.dt_verdict.specs.declared.answers.Refusal.TheVariants as refusal;
ghost use Rattle.dt_reading.specs.Reading.{IsRefusedAt, refusal_in};
ghost use Rattle.dt_pass.specs.Checked.{IsCheckOf};

use crate::joining::answer;
use crate::opening::{Opened, open_run};
use crate::starting::{Feeder, Rest, given_back, into_parts, make_crew, run_all};
use dt_feed::FeedEnd;
use dt_pass::pass_behind;
use dt_reading::read_header;
use dt_record::{Image, Probes};
use dt_source::Gate;
use dt_verdict::{Checked, Refusal};
use std::alloc::Global;
use std::sync::Wait;
use std::thread::Threads;

/// Checks the records of a stream that has answered nothing yet against an image, by so many workers in
/// threads of their own, which judge while the stream is read. Where a thread cannot be started, this
/// one judges alone. It waits.
///
/// The gate is told of each record that is fed, taken and judged, from the thread that does it.
pub fn check<R: Threads + Wait + Sync, P: Probes, G: Gate + Sync>(
    rt: &R,
    alloc: Global,
    image: &Image,
    probes: &mut P,
    workers: u8,
    gate: &G,
) -> Result<Checked, Refusal>
    requires fresh { IsFresh (P.progress probes.old) }
    requires some_worker { 1 ≤ workers }
    requires few_workers { workers ≤ 8 }
    ensures checked { IfOk result (λ checked. IsCheckOf image.now (P.left probes.old) (P.progress probes.new) checked) }
    ensures accepted { OnOk result (IfSome (P.left probes.old) (λ answers. refusal_in answers ≡ None)) }
    ensures refused { IfErr result (λ r. r ≢ refusal.ReadFault → r ≢ refusal.OutOfMemory
        → IfSome (P.left probes.old) (λ answers. refusal_in answers ≡ Some r)) }
    ensures refused_at { IfErr result (λ r. IsRefusedAt (P.progress probes.new) r) }
    ensures fault { result ≡ Err refusal.ReadFault → Rose (P.faults probes.old) (P.faults probes.new) }
    ensures needed { result ≡ Err refusal.ReadFault
        → (bytes : Option (List ℕ)) → P.has_origin probes.old bytes → P.leaves_open probes.new bytes }
    ensures never_falls { P.faults probes.old ≤ P.faults probes.new }
    ensures same_lent { P.lent probes.new ≡ P.lent probes.old }
{
    let header = read_header(probes)?;
    let Opened {
        shared,
        workers,
        feeds,
        pass,
    } = open_run(alloc, image, header, workers)?;
    let crew = make_crew(alloc, workers)?;
    let feeder = Feeder {
        probes: &mut *probes,
        feeds,
        pass,
        end: FeedEnd::Stopped,
    };
    let (lent, rest) = into_parts(run_all(rt, &shared, gate, crew, feeder));
    given_back(lent);
    let Rest {
        started,
        ends,
        feeds,
        pass,
        end,
    } = rest;
    if !started {
        return pass_behind(alloc, image, header.harts, header.wide, probes);
    }
    match end {
        FeedEnd::Whole => Ok(answer(alloc, header.harts, shared, ends, feeds, pass)?),
        FeedEnd::Refused(refusal) => Err(refusal),
        FeedEnd::Stopped => Err(Refusal::OutOfMemory),
    }
}
