ghost use Rattle.std.specs.Prelude.{◌≡◌, ◌≢◌, ◌≤◌};
ghost use Rattle.dt_source.specs.Faults.{Rose};
ghost use Rattle.dt_words.specs.Table.{asked_in};
ghost use Rattle.dt_top.specs.Running.{AnswersWhole, Ran, outside};
ghost use Rattle.dt_top.specs.Tasks.{ReadsImage, ReadsProbes, asked_among, is_plain, is_threaded};

use crate::replies::Reply;
use crate::running::{put_reply, run_command as run_plain_command};
use crate::workers::{Threading, run_command as run_check_command};
use dt_source::{Gate, Sink, Source};
use dt_words::{WordsRefusal, parse_words};
use std::alloc::Global;
use std::sync::Wait;
use std::thread::Threads;

/// Does what the words say, on one thread: writes the answer and gives the exit status.
///
/// 0 the check passed, or the file was written; 1 the check failed; 2 the words are not in the
/// table, or name `check`, which is not done here; 3 the image is too long; 4 the probe file is
/// malformed; 5 a read failed; 6 a write
/// failed; 7 there was no memory; 8 the probe file has too many records or writes. Of several
/// refusals the first counts: that of the words, that of the image, and then the one that the probe
/// file meets first. 6 stands over all of them, and 7 may come at any point.
pub fn run_plain<I: Source, P: Source, O: Sink>(
    alloc: Global,
    words: &[String],
    image: &mut I,
    probes: &mut P,
    out: &mut O,
) -> u8
    // Each cause of the status, and what is written then.
    ensures ran { Ran (asked_among is_plain (asked_in words.now))
        (outside (I.left image.old) (I.left image.new) (I.faults image.old) (I.faults image.new))
        (outside (P.left probes.old) (P.left probes.new) (P.faults probes.old) (P.faults probes.new))
        (outside (O.written out.old) (O.written out.new) (O.faults out.old) (O.faults out.new)) result }

    // Where nothing failed and memory was not refused, the answer comes.
    ensures calm { (Rose (I.faults image.old) (I.faults image.new) → ⊥)
        → (Rose (P.faults probes.old) (P.faults probes.new) → ⊥)
        → (Rose (O.faults out.old) (O.faults out.new) → ⊥) → result ≢ 7
        → AnswersWhole (asked_among is_plain (asked_in words.now))
        (outside (I.left image.old) (I.left image.new) (I.faults image.old) (I.faults image.new))
        (outside (P.left probes.old) (P.left probes.new) (P.faults probes.old) (P.faults probes.new))
        (outside (O.written out.old) (O.written out.new) (O.faults out.old) (O.faults out.new)) result }

    // What the task does not read is left alone.
    ensures image_stays { (ReadsImage (asked_among is_plain (asked_in words.now)) → ⊥) → image.new ≡ image.old }
    ensures probes_stay { (ReadsProbes (asked_among is_plain (asked_in words.now)) → ⊥) → probes.new ≡ probes.old }

    ensures image_never_falls { I.faults image.old ≤ I.faults image.new }
    ensures probes_never_falls { P.faults probes.old ≤ P.faults probes.new }
    ensures out_never_falls { O.faults out.old ≤ O.faults out.new }
{
    plain_words(alloc, words, image, probes, out)
}

/// Does what the words say, in several threads, where they name `check`: writes the answer and gives the
/// exit status. Both are those of `run_plain` with `pass` in its place. It waits for its threads. The
/// statuses are those of `run_plain`; 2 comes for the words of its commands too.
pub fn run_check<R: Threads + Wait + Sync, I: Source, P: Source, O: Sink, G: Gate + Sync>(
    rt: &R,
    alloc: Global,
    words: &[String],
    image: &mut I,
    probes: &mut P,
    out: &mut O,
    gate: &G,
) -> u8
    // Each cause of the status, and what is written then.
    ensures ran { Ran (asked_among is_threaded (asked_in words.now))
        (outside (I.left image.old) (I.left image.new) (I.faults image.old) (I.faults image.new))
        (outside (P.left probes.old) (P.left probes.new) (P.faults probes.old) (P.faults probes.new))
        (outside (O.written out.old) (O.written out.new) (O.faults out.old) (O.faults out.new)) result }

    // Where nothing failed and memory was not refused, the answer comes.
    ensures calm { (Rose (I.faults image.old) (I.faults image.new) → ⊥)
        → (Rose (P.faults probes.old) (P.faults probes.new) → ⊥)
        → (Rose (O.faults out.old) (O.faults out.new) → ⊥) → result ≢ 7
        → AnswersWhole (asked_among is_threaded (asked_in words.now))
        (outside (I.left image.old) (I.left image.new) (I.faults image.old) (I.faults image.new))
        (outside (P.left probes.old) (P.left probes.new) (P.faults probes.old) (P.faults probes.new))
        (outside (O.written out.old) (O.written out.new) (O.faults out.old) (O.faults out.new)) result }

    // What the task does not read is left alone.
    ensures image_stays { (ReadsImage (asked_among is_threaded (asked_in words.now)) → ⊥) → image.new ≡ image.old }
    ensures probes_stay { (ReadsProbes (asked_among is_threaded (asked_in words.now)) → ⊥) → probes.new ≡ probes.old }

    ensures image_never_falls { I.faults image.old ≤ I.faults image.new }
    ensures probes_never_falls { P.faults probes.old ≤ P.faults probes.new }
    ensures out_never_falls { O.faults out.old ≤ O.faults out.new }
{
    check_words(&Threading { rt, gate }, alloc, words, image, probes, out)
}

/// The run of words on one thread.
fn plain_words<I: Source, P: Source, O: Sink>(
    alloc: Global,
    words: &[String],
    image: &mut I,
    probes: &mut P,
    out: &mut O,
) -> u8
    ensures ran { Ran (asked_among is_plain (asked_in words.now))
        (outside (I.left image.old) (I.left image.new) (I.faults image.old) (I.faults image.new))
        (outside (P.left probes.old) (P.left probes.new) (P.faults probes.old) (P.faults probes.new))
        (outside (O.written out.old) (O.written out.new) (O.faults out.old) (O.faults out.new)) result }
    ensures image_stays { (ReadsImage (asked_among is_plain (asked_in words.now)) → ⊥) → image.new ≡ image.old }
    ensures probes_stay { (ReadsProbes (asked_among is_plain (asked_in words.now)) → ⊥) → probes.new ≡ probes.old }
    ensures image_never_falls { I.faults image.old ≤ I.faults image.new }
    ensures probes_never_falls { P.faults probes.old ≤ P.faults probes.new }
    ensures out_never_falls { O.faults out.old ≤ O.faults out.new }
{
    match parse_words(alloc, words) {
        Ok(command) => run_plain_command(alloc, &command, image, probes, out),
        Err(WordsRefusal::Usage) => put_reply(&Reply::Usage, out),
        Err(WordsRefusal::OutOfMemory) => put_reply(&Reply::OutOfMemory, out),
    }
}

/// The run of words by workers.
fn check_words<R: Threads + Wait + Sync, I: Source, P: Source, O: Sink, G: Gate + Sync>(
    threading: &Threading<'_, R, G>,
    alloc: Global,
    words: &[String],
    image: &mut I,
    probes: &mut P,
    out: &mut O,
) -> u8
    ensures ran { Ran (asked_among is_threaded (asked_in words.now))
        (outside (I.left image.old) (I.left image.new) (I.faults image.old) (I.faults image.new))
        (outside (P.left probes.old) (P.left probes.new) (P.faults probes.old) (P.faults probes.new))
        (outside (O.written out.old) (O.written out.new) (O.faults out.old) (O.faults out.new)) result }
    ensures image_stays { (ReadsImage (asked_among is_threaded (asked_in words.now)) → ⊥) → image.new ≡ image.old }
    ensures probes_stay { (ReadsProbes (asked_among is_threaded (asked_in words.now)) → ⊥) → probes.new ≡ probes.old }
    ensures image_never_falls { I.faults image.old ≤ I.faults image.new }
    ensures probes_never_falls { P.faults probes.old ≤ P.faults probes.new }
    ensures out_never_falls { O.faults out.old ≤ O.faults out.new }
{
    match parse_words(alloc, words) {
        Ok(command) => run_check_command(threading, alloc, &command, image, probes, out),
        Err(WordsRefusal::Usage) => put_reply(&Reply::Usage, out),
        Err(WordsRefusal::OutOfMemory) => put_reply(&Reply::OutOfMemory, out),
    }
}
