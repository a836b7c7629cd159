ghost use Rattle.std.specs.Prelude.{◌≡◌, ◌≢◌, ◌<◌, ◌≤◌, ◌+◌, ℕ, [], IfOk, IfSome, OnOk, OnErr, length, take, drop};
ghost use Rattle.dt_source.specs.Faults.{Rose};
ghost use Rattle.dt_source.specs.Known.{TakesFrom, TakesSome, Appends};
ghost use Rattle.dt_source.specs.Whole.{FillsAsTold};

use crate::traits::{Failed, Sink, Source};
use std::alloc::{AllocError, Global};

/// How many bytes are read into a local buffer at a time.
const CHUNK: usize = 4096;

/// Why a source was not read to its end.
#[derive(Clone, Copy, Debug, PartialEq, Eq)]
pub enum ReadRefusal {
    /// More bytes were left than the caller wanted: one more than that was read.
    TooLong,
    /// A read failed.
    ReadFault,
    /// There was no memory for the bytes. What was read is gone.
    OutOfMemory,
}

impl From<AllocError> for ReadRefusal {
    ghost use Rattle.dt_source.specs.declared.whole.ReadRefusal.TheVariants.{OutOfMemory};

    ghost from_gives = { λ _ refusal. refusal ≡ OutOfMemory };

    fn from(_: AllocError) -> ReadRefusal {
        ReadRefusal::OutOfMemory
    }
}

/// What filling a buffer came to.
#[derive(Clone, Copy, Debug, PartialEq, Eq)]
pub enum Filled {
    Full,
    /// The source ended after this many bytes.
    Ended { count: usize },
    /// A read failed.
    Failed,
}

/// Reads into the first `room` bytes of the buffer.
fn read_front<S: Source>(source: &mut S, buf: &mut [u8], room: usize) -> Result<usize, Failed>
    requires some { 0 < room }
    requires fits { room ≤ length buf.old }
    ensures within { IfOk result (λ n. n ≤ room) }
    ensures takes { IfOk result (λ n.
        TakesFrom (S.left source.old) (take n buf.new) (S.left source.new)) }
    ensures end { result ≡ Ok 0 → IfSome (S.left source.new) (λ rest. rest ≡ []) }
    ensures failed_only { OnErr result (Rose (S.faults source.old) (S.faults source.new)) }
    ensures quiet { OnOk result (S.faults source.new ≡ S.faults source.old) }
    ensures failed_takes_nothing { OnErr result (S.left source.new ≡ S.left source.old) }
    ensures never_falls { S.faults source.old ≤ S.faults source.new }
{
    let (front, _rest) = buf.split_at_mut(room);
    source.read(front)
}

/// Reads the next bytes into the buffer from place `at` on and says how many: 0 only at the end.
pub fn read_behind<S: Source>(source: &mut S, buf: &mut [u8], at: usize) -> Result<usize, Failed>
    requires { at < length buf.old }
    ensures within { IfOk result (λ n. at + n ≤ length buf.old) }
    ensures takes { IfOk result (λ n.
        TakesFrom (S.left source.old) (take n (drop at buf.new)) (S.left source.new)) }
    ensures front_stays { take at buf.new ≡ take at buf.old }
    ensures end { result ≡ Ok 0 → IfSome (S.left source.new) (λ rest. rest ≡ []) }
    ensures failed_only { OnErr result (Rose (S.faults source.old) (S.faults source.new)) }
    ensures quiet { OnOk result (S.faults source.new ≡ S.faults source.old) }
    ensures failed_takes_nothing { OnErr result (S.left source.new ≡ S.left source.old) }
    ensures never_falls { S.faults source.old ≤ S.faults source.new }
    ensures same_lent { S.lent source.new ≡ S.lent source.old }
{
    let (_front, free) = buf.split_at_mut(at);
    source.read(free)
}

/// Reads a source to its end, where it has at most `bound` bytes left.
pub fn read_up_to<S: Source>(
    alloc: Global,
    source: &mut S,
    bound: usize,
) -> Result<Vec<u8>, ReadRefusal>
    ensures within { IfOk result (λ bytes. length bytes.items ≤ bound) }
    ensures takes { IfOk result (λ bytes.
        TakesFrom (S.left source.old) bytes.items (S.left source.new)) }
    ensures end { OnOk result (IfSome (S.left source.new) (λ rest. rest ≡ [])) }
    ensures too_long { result ≡ Err ReadRefusal.TooLong
        → TakesSome (S.left source.old) (S.left source.new) (bound + 1) }
    ensures fault_only { result ≡ Err ReadRefusal.ReadFault
        → Rose (S.faults source.old) (S.faults source.new) }
    ensures quiet { result ≢ Err ReadRefusal.ReadFault
        → S.faults source.new ≡ S.faults source.old }
    ensures fault_takes { result ≡ Err ReadRefusal.ReadFault
        → ((n : ℕ) × (n ≤ bound) × TakesSome (S.left source.old) (S.left source.new) n) }
    ensures refused_takes { OnErr result
        ((n : ℕ) × (n ≤ bound + 1) × TakesSome (S.left source.old) (S.left source.new) n) }
    ensures never_falls { S.faults source.old ≤ S.faults source.new }
{
    let mut bytes = Vec::new(alloc);
    let mut chunk = [0u8; CHUNK];
    while bytes.len() <= bound {
        let room = (bound - bytes.len()).min(CHUNK - 1) + 1;
        match read_front(source, &mut chunk, room) {
            Ok(0) => return Ok(bytes),
            Ok(count) => bytes.extend_from_slice(&chunk[..count])?,
            Err(Failed) => return Err(ReadRefusal::ReadFault),
        }
    }
    Err(ReadRefusal::TooLong)
}

/// Reads until the buffer is full, the source ends or a read fails.
pub fn fill<S: Source>(source: &mut S, buf: &mut [u8]) -> Filled
    ensures told { FillsAsTold result (S.left source.old) buf.new (S.left source.new) }
    ensures failed_only { result ≡ Filled.Failed → Rose (S.faults source.old) (S.faults source.new) }
    ensures quiet { result ≢ Filled.Failed → S.faults source.new ≡ S.faults source.old }
    ensures never_falls { S.faults source.old ≤ S.faults source.new }
{
    let mut at = 0;
    while at < buf.len() {
        match read_behind(source, buf, at) {
            Ok(0) => return Filled::Ended { count: at },
            Ok(count) => at += count,
            Err(Failed) => return Filled::Failed,
        }
    }
    Filled::Full
}

/// Writes a whole text.
pub fn write_all<O: Sink>(sink: &mut O, text: &[u8]) -> Result<(), Failed>
    ensures ok { OnOk result (Appends (O.written sink.old) text.now (O.written sink.new)) }
    ensures failed_only { OnErr result (Rose (O.faults sink.old) (O.faults sink.new)) }
    ensures quiet { OnOk result (O.faults sink.new ≡ O.faults sink.old) }
    ensures failed_appends_prefix { OnErr result ((n : ℕ) × (n < length text.now)
        × Appends (O.written sink.old) (take n text.now) (O.written sink.new)) }
    ensures never_falls { O.faults sink.old ≤ O.faults sink.new }
{
    let mut at = 0;
    while at < text.len() {
        at += sink.write(&text[at..])?;
    }
    Ok(())
}
