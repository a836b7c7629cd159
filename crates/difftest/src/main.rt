//! `difftest pass [--sources] IMAGE PROBES`: judges what a RISC-V design did, from its probe file.
//! `difftest check [--workers N] [--sources] IMAGE PROBES` does so in several threads, `difftest dump PROBES`
//! prints the file's records, and `difftest convert --to N PROBES` writes it in another version.
#![tactic(auto)]

use dt_source::{FileSource, FreeGate, Sink, StdSink, write_all};
use dt_top::{Command, Task, WordsRefusal, parse_words, run_check, run_plain};
use std::io;
use std::process::ExitCode;
use std::rt::{Env, Files};
use std::sync::Wait;
use std::thread::Threads;

const OUT_OF_MEMORY: u8 = 7;

fn main(rt: HostRuntime) -> ExitCode {
    ExitCode::from(run(&rt))
}

fn run<R: Env + Files + Print + AllocGlobal + Threads + Wait + Sync>(rt: &R) -> u8 {
    let mut out = StdSink::new(io::writer(rt));
    let words = match words_of(rt) {
        Ok(words) => words,
        Err(e) if e.kind() == io::ErrorKind::OutOfMemory => return without_memory(&mut out),
        // A word that is not UTF-8 is in no table of words, and neither are no words at all.
        Err(_) => Vec::new(rt.alloc()),
    };
    match parse_words(rt.alloc(), words.as_slice()) {
        Ok(command) => answer(rt, words.as_slice(), &command, &mut out),
        Err(WordsRefusal::Usage) => usage(rt, words.as_slice(), &mut out),
        Err(WordsRefusal::OutOfMemory) => without_memory(&mut out),
    }
}

/// The words after the program's own name.
fn words_of<R: Env + AllocGlobal>(rt: &R) -> io::Result<Vec<String>> {
    Ok(std::env::args(rt)?.skip(1).collect(rt.alloc())?)
}

/// The answer to words that name a command. Those of `check` alone start threads and wait for them.
fn answer<R: Files + AllocGlobal + Threads + Wait + Sync, O: Sink>(
    rt: &R,
    words: &[String],
    command: &Command,
    out: &mut O,
) -> u8 {
    let alloc = rt.alloc();
    let mut image = FileSource::named(rt, command.image.as_ref().map(|path| path.as_str()));
    let mut probes = FileSource::named(rt, command.probes.as_ref().map(|path| path.as_str()));
    match command.task {
        Task::Check => run_check(rt, alloc, words, &mut image, &mut probes, out, &FreeGate),
        Task::Pass | Task::Dump | Task::Convert => {
            run_plain(alloc, words, &mut image, &mut probes, out)
        }
    }
}

/// The answer to words that are in no table.
fn usage<R: Files + AllocGlobal, O: Sink>(rt: &R, words: &[String], out: &mut O) -> u8 {
    let mut image = FileSource::named(rt, None);
    let mut probes = FileSource::named(rt, None);
    run_plain(rt.alloc(), words, &mut image, &mut probes, out)
}

fn without_memory<O: Sink>(out: &mut O) -> u8 {
    let _ = write_all(out, b"OUT OF MEMORY\n");
    OUT_OF_MEMORY
}
