ghost use Rattle.std.specs.Prelude.{◌≡◌, ◌<◌, ◌≤◌, ℕ, length, MatchOption};
ghost use Rattle.dt_record.specs.ProbeFile.{IsNext};
ghost use Rattle.dt_record.specs.Answers.{HasRoom, IsTooMany, after_record, opened, spelled_next};
ghost use Rattle.dt_record.specs.Versions.{version_of};
ghost use Rattle.dt_probe_file.specs.Fronts.{IsSound, reading_of, first_too_many};

use dt_record::{RECORD_LIMIT, Record, Version, WRITE_LIMIT, What, writes_memory};

/// What was read of a file whose header has come.
#[derive(Clone, Copy, Debug)]
pub(crate) struct Opened {
    pub(crate) version: Version,
    pub(crate) harts: u8,
    pub(crate) wide: bool,
    /// The stamp of each hart's last record, 0 before its first.
    pub(crate) last: [u64; 8],
    /// How many records came.
    pub(crate) events: u64,
    /// How many of them write memory.
    pub(crate) writes: u64,
    /// How many bytes came.
    pub(crate) at: u64,
}

/// A file of which only the header has come.
pub(crate) fn open(version: Version, harts: u8, wide: bool) -> Opened
    requires some { 1 ≤ harts }
    requires few { harts ≤ 8 }
    ensures reading { reading_of result ≡ opened (version_of version) harts }
    ensures harts { result.harts ≡ harts }
    ensures wide { result.wide ≡ wide }
    ensures sound { IsSound result }
{
    Opened {
        version,
        harts,
        wide,
        last: [0; 8],
        events: 0,
        writes: 0,
        at: 16,
    }
}

/// What there is too much of with one more record.
pub(crate) fn too_many(opened: &Opened, event: &Record) -> Option<What>
    requires { IsSound opened.now }
    ensures { MatchOption result (HasRoom (reading_of opened.now) event.now)
        (λ what. IsTooMany (reading_of opened.now) event.now what (first_too_many what)) }
{
    if opened.events >= u64::from(RECORD_LIMIT) {
        return Some(What::Records);
    }
    if opened.writes >= u64::from(WRITE_LIMIT) && writes_memory(event) {
        return Some(What::Writes);
    }
    None
}

/// The number, from 1, of the first too many.
pub(crate) fn limit_number(what: What) -> u64
    ensures { result ≡ first_too_many what }
{
    match what {
        What::Records => u64::from(RECORD_LIMIT) + 1,
        What::Writes => u64::from(WRITE_LIMIT) + 1,
    }
}

/// A file after one more record, whose spelling has this length.
pub(crate) fn advanced(opened: &Opened, event: &Record, len: usize) -> Opened
    requires sound { IsSound opened.now }
    requires hart { event.now.hart < opened.now.harts }
    requires room { HasRoom (reading_of opened.now) event.now }
    requires len { len ≡ length (spelled_next (reading_of opened.now) event.now) }
    requires short { len ≤ 1024 }
    ensures reading { reading_of result ≡ after_record (reading_of opened.now) event.now }
    ensures harts { result.harts ≡ opened.now.harts }
    ensures wide { result.wide ≡ opened.now.wide }
    ensures sound { IsSound result }
{
    let mut next = *opened;
    next.last[usize::from(event.hart)] = event.stamp;
    next.events += 1;
    next.writes += u64::from(writes_memory(event));
    next.at += len as u64;
    next
}
