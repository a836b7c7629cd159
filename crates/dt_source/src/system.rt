ghost use Rattle.std.specs.Prelude.{◌≡◌, ◌<◌, ◌≤◌, IfSome, length, take};
ghost use Rattle.std.specs.Io.KnownBytes.{Appends as KnownAppends};

use crate::counts::failed;
use crate::traits::{Failed, Sink, Source};
use std::fs;
use std::io::{Read, Write};
use std::marker::Model;
use std::rt::Files;

/// What a `FileSource` reads from.
#[derive(Drop)]
enum Input<F> {
    /// No path was given: there are no bytes.
    Nothing,
    /// The file could not be opened.
    Unreadable,
    File(F),
}

/// The bytes of a file. It counts each error, and tells no bytes: no contract can say what a file
/// gives. A contract sees its count of faults alone.
#[derive(Drop)]
pub struct FileSource<R: Files> {
    input: Input<R::File>,
    faults: u64,
}

impl<R: Files> Model for FileSource<R> {
    ghost use Rattle.std.specs.Prelude.{ℕ};

    ghost Value = { ℕ };

    ghost view = { λ source. source.faults };
}

impl<R: Files> FileSource<R> {
    /// The file at the path, or nothing where there is no path. Where the file cannot be opened,
    /// each read fails.
    pub fn named(rt: &R, path: Option<&str>) -> FileSource<R>
        ensures { result ≡ 0 }
    {
        let input = match path {
            None => Input::Nothing,
            Some(path) => match fs::open(rt, path) {
                Ok(file) => Input::File(file),
                Err(_) => Input::Unreadable,
            },
        };
        FileSource { input, faults: 0 }
    }
}

impl<R: Files> Source for FileSource<R> {
    ghost use Rattle.std.specs.Prelude.{None};

    ghost left = { λ _. None };

    ghost faults = { λ faults. faults };

    fn read(&mut self, buf: &mut [u8]) -> Result<usize, Failed> {
        let read = match &mut self.input {
            Input::Nothing => Some(0),
            Input::Unreadable => None,
            Input::File(file) => file.read(buf).ok(),
        };
        match read {
            Some(count) => Ok(count),
            None => Err(failed(&mut self.faults)),
        }
    }
}

/// A writer of the system, as standard output. It flushes after each write, counts each error, and
/// tells no bytes. A contract sees its count of faults alone.
#[derive(Drop)]
pub struct StdSink<W> {
    writer: W,
    faults: u64,
}

impl<W> Model for StdSink<W> {
    ghost use Rattle.std.specs.Prelude.{ℕ};

    ghost Value = { ℕ };

    ghost view = { λ sink. sink.faults };
}

impl<W: Write> StdSink<W> {
    /// A sink that writes to this writer. No call has failed yet.
    pub fn new(writer: W) -> StdSink<W>
        ensures { result ≡ 0 }
    {
        StdSink { writer, faults: 0 }
    }
}

/// Writes from the front of the piece and flushes. None says that one of them failed, or that
/// nothing of a piece was taken.
fn write_through<W: Write>(writer: &mut W, piece: &[u8]) -> Option<usize>
    ensures within { IfSome result (λ n. n ≤ length piece.now) }
    ensures some { 0 < length piece.now → IfSome result (λ n. 0 < n) }
    ensures passes_on { IfSome result (λ n.
        KnownAppends (W.contents writer.old) (W.contents writer.new) (take n piece.now)) }
{
    let count = writer.write(piece).ok()?;
    if count == 0 && !piece.is_empty() {
        return None;
    }
    writer.flush().ok()?;
    Some(count)
}

impl<W: Write> Sink for StdSink<W> {
    ghost use Rattle.std.specs.Prelude.{None};

    ghost written = { λ _. None };

    ghost faults = { λ faults. faults };

    fn write(&mut self, piece: &[u8]) -> Result<usize, Failed> {
        match write_through(&mut self.writer, piece) {
            Some(count) => Ok(count),
            None => Err(failed(&mut self.faults)),
        }
    }
}
