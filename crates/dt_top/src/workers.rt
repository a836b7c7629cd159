//! What the top call with workers runs.
ghost use Rattle.std.specs.Prelude.{◌≡◌, ◌≤◌, List, Option, Some, true};
ghost use Rattle.dt_record.specs.declared.streams.Next.{Next};
ghost use Rattle.dt_probe_file.specs.Told.{AreToldOf};
ghost use Rattle.dt_words.specs.Table.{Asked, asked_by};
ghost use Rattle.dt_top.specs.Replies.{CameOf, IsStreamReply, JudgesFile, answer_by};
ghost use Rattle.dt_top.specs.Running.{Ran, outside};
ghost use Rattle.dt_top.specs.Tasks.{an_image, asked_among, first_input, is_threaded, reads_probes};

use crate::replies::{Reply, image_reply, judged_reply};
use crate::running::put_reply;
use dt_image::{Image, load};
use dt_pool::check;
use dt_probe_file::{FileProbes, Room};
use dt_source::{Gate, Sink, Source};
use dt_words::{Command, Task};
use std::alloc::Global;
use std::sync::Wait;
use std::thread::Threads;

/// The right to start threads and to wait for them, and the gate at which they can be held.
#[derive(Drop)]
pub struct Threading<'a, R: Threads + Wait + Sync, G: Gate + Sync> {
    pub rt: &'a R,
    pub gate: &'a G,
}

/// The reply to an image and a probe file, by as many workers as the command says.
fn check_over<R: Threads + Wait + Sync, P: Source, G: Gate + Sync>(
    threading: &Threading<'_, R, G>,
    alloc: Global,
    command: &Command,
    image: &Image,
    probes: &mut P,
) -> Reply
    requires some_worker { 1 ≤ command.now.workers }
    requires few_workers { command.now.workers ≤ 8 }
    ensures said { (told : Option (List Next)) × AreToldOf (P.left probes.old) told
        × IsStreamReply image.now command.now.sources told
        (outside (P.left probes.old) (P.left probes.new) (P.faults probes.old) (P.faults probes.new)) result }
    ensures never_falls { P.faults probes.old ≤ P.faults probes.new }
{
    let Ok(room) = Room::new(alloc) else {
        return Reply::OutOfMemory;
    };
    let mut stream = FileProbes::within(room, probes);
    let answer = check(
        threading.rt,
        alloc,
        image,
        &mut stream,
        command.workers,
        threading.gate,
    );
    stream.into_source();
    judged_reply(alloc, command.sources, answer)
}

/// The reply to what the sources of an image and a probe file give. Where the image is refused, the
/// probe file is not read.
fn check_reply<R: Threads + Wait + Sync, I: Source, P: Source, G: Gate + Sync>(
    threading: &Threading<'_, R, G>,
    alloc: Global,
    command: &Command,
    image: &mut I,
    probes: &mut P,
) -> Reply
    requires some_worker { 1 ≤ command.now.workers }
    requires few_workers { command.now.workers ≤ 8 }
    ensures came { (asked : Asked) → JudgesFile asked.task → asked.sources ≡ command.now.sources → CameOf (Some asked)
        (outside (I.left image.old) (I.left image.new) (I.faults image.old) (I.faults image.new))
        (outside (P.left probes.old) (P.left probes.new) (P.faults probes.old) (P.faults probes.new)) (answer_by result) }
    ensures image_never_falls { I.faults image.old ≤ I.faults image.new }
    ensures probes_never_falls { P.faults probes.old ≤ P.faults probes.new }
{
    match load(alloc, image) {
        Ok(image) => check_over(threading, alloc, command, &image, probes),
        Err(refusal) => image_reply(refusal),
    }
}

/// Judges a probe file against the reference, by workers.
fn run_report<R: Threads + Wait + Sync, I: Source, P: Source, O: Sink, G: Gate + Sync>(
    threading: &Threading<'_, R, G>,
    alloc: Global,
    command: &Command,
    image: &mut I,
    probes: &mut P,
    out: &mut O,
) -> u8
    requires some_worker { 1 ≤ command.now.workers }
    requires few_workers { command.now.workers ≤ 8 }
    ensures ran { (asked : Asked) → JudgesFile asked.task → asked.sources ≡ command.now.sources → Ran (Some asked)
        (outside (I.left image.old) (I.left image.new) (I.faults image.old) (I.faults image.new))
        (outside (P.left probes.old) (P.left probes.new) (P.faults probes.old) (P.faults probes.new))
        (outside (O.written out.old) (O.written out.new) (O.faults out.old) (O.faults out.new)) result }
    ensures image_never_falls { I.faults image.old ≤ I.faults image.new }
    ensures probes_never_falls { P.faults probes.old ≤ P.faults probes.new }
    ensures out_never_falls { O.faults out.old ≤ O.faults out.new }
{
    let reply = check_reply(threading, alloc, command, image, probes);
    put_reply(&reply, out)
}

/// Does what a command says, where it is one of the top call with workers.
pub fn run_command<R: Threads + Wait + Sync, I: Source, P: Source, O: Sink, G: Gate + Sync>(
    threading: &Threading<'_, R, G>,
    alloc: Global,
    command: &Command,
    image: &mut I,
    probes: &mut P,
    out: &mut O,
) -> u8
    requires some_worker { 1 ≤ command.now.workers }
    requires few_workers { command.now.workers ≤ 8 }
    ensures ran { Ran (asked_among is_threaded (Some (asked_by command.now)))
        (outside (I.left image.old) (I.left image.new) (I.faults image.old) (I.faults image.new))
        (outside (P.left probes.old) (P.left probes.new) (P.faults probes.old) (P.faults probes.new))
        (outside (O.written out.old) (O.written out.new) (O.faults out.old) (O.faults out.new)) result }
    ensures image_stays { (is_threaded command.now.task ≡ true → first_input command.now.task ≡ an_image → ⊥)
        → image.new ≡ image.old }
    ensures probes_stay { (is_threaded command.now.task ≡ true → reads_probes command.now.task ≡ true → ⊥)
        → probes.new ≡ probes.old }
    ensures image_never_falls { I.faults image.old ≤ I.faults image.new }
    ensures probes_never_falls { P.faults probes.old ≤ P.faults probes.new }
    ensures out_never_falls { O.faults out.old ≤ O.faults out.new }
{
    match command.task {
        Task::Check => run_report(threading, alloc, command, image, probes, out),
        _ => put_reply(&Reply::Usage, out),
    }
}
