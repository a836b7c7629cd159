//! The runs of the tasks.
ghost use Rattle.std.specs.Prelude.{◌≡◌, ◌≤◌, Some, true};
ghost use Rattle.dt_convert.specs.Convert.{version_of};
ghost use Rattle.dt_words.specs.declared.commands.Task.TheVariants.{Dump, Convert};
ghost use Rattle.dt_words.specs.Table.{Asked, asked_by};
ghost use Rattle.dt_top.specs.Answer.{version_named};
ghost use Rattle.dt_top.specs.Replies.{IsPut, JudgesFile, answer_by};
ghost use Rattle.dt_top.specs.Running.{Outside, Ran, outside};
ghost use Rattle.dt_top.specs.Tasks.{an_image, asked_among, first_input, is_plain, reads_probes};

use crate::replies::{Reply, pass_reply};
use dt_convert::{FileVersion, convert_probes};
use dt_dump::{WRITE_FAULT, dump_probes};
use dt_probe_file::{FileProbes, Room};
use dt_source::{Failed, Sink, Source, write_all};
use dt_words::{Command, Task};
use std::alloc::Global;

/// Writes a reply, and gives the exit status.
pub fn put_reply<O: Sink>(reply: &Reply, out: &mut O) -> u8
    ensures put { IsPut (answer_by reply.now)
        (outside (O.written out.old) (O.written out.new) (O.faults out.old) (O.faults out.new)) result }
    ensures never_falls { O.faults out.old ≤ O.faults out.new }
{
    match write_all(out, reply.text()) {
        Ok(()) => reply.status(),
        Err(Failed) => WRITE_FAULT,
    }
}

/// Judges a probe file against the reference, on one thread.
fn run_pass<I: Source, P: Source, O: Sink>(
    alloc: Global,
    sources: bool,
    image: &mut I,
    probes: &mut P,
    out: &mut O,
) -> u8
    ensures ran { (asked : Asked) → JudgesFile asked.task → asked.sources ≡ sources → Ran (Some asked)
        (outside (I.left image.old) (I.left image.new) (I.faults image.old) (I.faults image.new))
        (outside (P.left probes.old) (P.left probes.new) (P.faults probes.old) (P.faults probes.new))
        (outside (O.written out.old) (O.written out.new) (O.faults out.old) (O.faults out.new)) result }
    ensures image_never_falls { I.faults image.old ≤ I.faults image.new }
    ensures probes_never_falls { P.faults probes.old ≤ P.faults probes.new }
    ensures out_never_falls { O.faults out.old ≤ O.faults out.new }
{
    let reply = pass_reply(alloc, sources, image, probes);
    put_reply(&reply, out)
}

/// Writes the records of a probe file.
fn run_dump<P: Source, O: Sink>(alloc: Global, probes: &mut P, out: &mut O) -> u8
    ensures ran { (asked : Asked) (image : Outside) → asked.task ≡ Dump → Ran (Some asked) image
        (outside (P.left probes.old) (P.left probes.new) (P.faults probes.old) (P.faults probes.new))
        (outside (O.written out.old) (O.written out.new) (O.faults out.old) (O.faults out.new)) result }
    ensures probes_never_falls { P.faults probes.old ≤ P.faults probes.new }
    ensures out_never_falls { O.faults out.old ≤ O.faults out.new }
{
    let Ok(room) = Room::new(alloc) else {
        return put_reply(&Reply::OutOfMemory, out);
    };
    let mut stream = FileProbes::within(room, probes);
    let status = dump_probes(alloc, &mut stream, out);
    stream.into_source();
    status
}

/// The version that the words ask for.
fn version_named(to: u8) -> FileVersion
    ensures { version_of result ≡ version_named to }
{
    if to == 1 {
        FileVersion::One
    } else {
        FileVersion::Two
    }
}

/// Writes a probe file in another version.
fn run_convert<P: Source, O: Sink>(alloc: Global, to: u8, probes: &mut P, out: &mut O) -> u8
    ensures ran { (asked : Asked) (image : Outside) → asked.task ≡ Convert → asked.to ≡ to → Ran (Some asked) image
        (outside (P.left probes.old) (P.left probes.new) (P.faults probes.old) (P.faults probes.new))
        (outside (O.written out.old) (O.written out.new) (O.faults out.old) (O.faults out.new)) result }
    ensures probes_never_falls { P.faults probes.old ≤ P.faults probes.new }
    ensures out_never_falls { O.faults out.old ≤ O.faults out.new }
{
    let Ok(room) = Room::new(alloc) else {
        return put_reply(&Reply::OutOfMemory, out);
    };
    let mut stream = FileProbes::within(room, probes);
    let status = convert_probes(alloc, version_named(to), &mut stream, out);
    stream.into_source();
    status
}

/// Does what a command says, where it is one of the top call on one thread.
pub fn run_command<I: Source, P: Source, O: Sink>(
    alloc: Global,
    command: &Command,
    image: &mut I,
    probes: &mut P,
    out: &mut O,
) -> u8
    ensures ran { Ran (asked_among is_plain (Some (asked_by command.now)))
        (outside (I.left image.old) (I.left image.new) (I.faults image.old) (I.faults image.new))
        (outside (P.left probes.old) (P.left probes.new) (P.faults probes.old) (P.faults probes.new))
        (outside (O.written out.old) (O.written out.new) (O.faults out.old) (O.faults out.new)) result }
    ensures image_stays { (is_plain command.now.task ≡ true → first_input command.now.task ≡ an_image → ⊥)
        → image.new ≡ image.old }
    ensures probes_stay { (is_plain command.now.task ≡ true → reads_probes command.now.task ≡ true → ⊥)
        → probes.new ≡ probes.old }
    ensures image_never_falls { I.faults image.old ≤ I.faults image.new }
    ensures probes_never_falls { P.faults probes.old ≤ P.faults probes.new }
    ensures out_never_falls { O.faults out.old ≤ O.faults out.new }
{
    match command.task {
        Task::Pass => run_pass(alloc, command.sources, image, probes, out),
        Task::Dump => run_dump(alloc, probes, out),
        Task::Convert => run_convert(alloc, command.to, probes, out),
        Task::Check => put_reply(&Reply::Usage, out),
    }
}
