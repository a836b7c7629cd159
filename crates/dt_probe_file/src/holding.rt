ghost use Rattle.std.specs.Prelude.{◌≡◌, ◌<◌, ◌≤◌, ◌+◌, ◌-◌, ◌++◌, [], true, false, length, drop, take, option_map, IfOk, IfSome, OnErr, OnOk};
ghost use Rattle.dt_source.specs.Faults.{Rose};
ghost use Rattle.dt_probe_file.specs.Parts.{ReadsOn, part, whole};

use dt_source::{Failed, Source, read_behind};
use std::alloc::{AllocError, Global};
use std::marker::Model;

/// How many bytes can be held.
const ROOM: usize = 4096;

/// The bytes that were read and that no answer has taken.
#[derive(Debug, Drop)]
pub(crate) struct Held {
    bytes: Vec<u8>,
    start: usize,
    end: usize,
}

impl Model for Held {
    ghost use Rattle.std.specs.Prelude.{◌≡◌, ◌≤◌, ◌-◌, List, ℕ, take, drop, vec_len};

    ghost Value = { List ℕ };

    ghost use Rattle.dt_probe_file.specs.Parts.{part};

    ghost view = { λ h. part h.start h.end h.bytes.items };

    ghost invariant = { λ h. (h.start ≤ h.end) × (h.end ≤ 4096) × (vec_len h.bytes ≡ 4096) };
}

/// Moves the bytes from a place on to the front, so many of them.
fn move_to_front(bytes: &mut [u8], start: usize, len: usize)
    requires apart { len ≤ start }
    requires within { start + len ≤ length bytes.old }
    ensures { take len bytes.new ≡ take len (drop start bytes.old) }
{
    let (front, back) = bytes.split_at_mut(start);
    front[..len].copy_from_slice(&back[..len]);
}

/// Makes room behind the bytes between two places, and says where they are then. They are moved
/// only where the whole room was used.
fn make_room(bytes: &mut [u8], start: usize, end: usize) -> (usize, usize)
    requires order { start ≤ end }
    requires within { end ≤ 4096 }
    requires whole { length bytes.old ≡ 4096 }
    requires few { end < start + 1024 }
    ensures order { result.0 ≤ result.1 }
    ensures room { result.1 < 4096 }
    ensures size { result.1 - result.0 ≡ end - start }
    ensures same { part result.0 result.1 bytes.new ≡ part start end bytes.old }
{
    if end < ROOM {
        return (start, end);
    }
    let len = end - start;
    move_to_front(bytes, start, len);
    (0, len)
}

/// Reads more bytes behind those between two places, and says whether there were any.
fn read_on<S: Source>(
    source: &mut S,
    bytes: &mut [u8],
    start: &mut usize,
    end: &mut usize,
) -> Result<bool, Failed>
    requires order { start.old ≤ end.old }
    requires within { end.old ≤ 4096 }
    requires whole { length bytes.old ≡ 4096 }
    requires few { end.old < start.old + 1024 }
    ensures order { start.new ≤ end.new }
    ensures within { end.new ≤ 4096 }
    ensures whole { whole (part start.new end.new bytes.new) (S.left source.new)
        ≡ whole (part start.old end.old bytes.old) (S.left source.old) }
    ensures reads { ReadsOn (part start.old end.old bytes.old) (S.left source.old) (part start.new end.new bytes.new) (S.left source.new) }
    ensures more { result ≡ Ok true → end.old - start.old < end.new - start.new }
    ensures end { result ≡ Ok false → (part start.new end.new bytes.new ≡ part start.old end.old bytes.old)
        × IfSome (S.left source.new) (λ rest. rest ≡ []) }
    ensures failed_only { OnErr result (Rose (S.faults source.old) (S.faults source.new)) }
    ensures failed_stays { OnErr result ((part start.new end.new bytes.new ≡ part start.old end.old bytes.old)
        × (S.left source.new ≡ S.left source.old)) }
    ensures quiet { OnOk result (S.faults source.new ≡ S.faults source.old) }
    ensures never_falls { S.faults source.old ≤ S.faults source.new }
    ensures same_lent { S.lent source.new ≡ S.lent source.old }
{
    let (first, last) = make_room(bytes, *start, *end);
    *start = first;
    *end = last;
    let count = read_behind(source, bytes, last)?;
    *end = last + count;
    Ok(count != 0)
}

impl Held {
    pub(crate) fn new(alloc: Global) -> Result<Held, AllocError>
        ensures { IfOk result (λ held. held ≡ []) }
    {
        let bytes = vec![in alloc; 0; ROOM]?;
        Ok(Held {
            bytes,
            start: 0,
            end: 0,
        })
    }

    pub(crate) fn bytes(&self) -> &[u8]
        ensures { result.now ≡ self.now }
    {
        &self.bytes[self.start..self.end]
    }

    /// Takes so many bytes away at the front.
    pub(crate) fn take_away(&mut self, count: usize)
        requires { count ≤ length self.old }
        ensures { self.new ≡ drop count self.old }
    {
        self.start += count;
    }

    /// Reads more bytes behind those that are held, and says whether there were any.
    pub(crate) fn read<S: Source>(&mut self, source: &mut S) -> Result<bool, Failed>
        requires { length self.old < 1024 }
        ensures whole { whole self.new (S.left source.new) ≡ whole self.old (S.left source.old) }
        ensures reads { ReadsOn self.old (S.left source.old) self.new (S.left source.new) }
        ensures more { result ≡ Ok true → length self.old < length self.new }
        ensures end { result ≡ Ok false → (self.new ≡ self.old) × IfSome (S.left source.new) (λ rest. rest ≡ []) }
        ensures failed_only { OnErr result (Rose (S.faults source.old) (S.faults source.new)) }
        ensures failed_stays { OnErr result ((self.new ≡ self.old) × (S.left source.new ≡ S.left source.old)) }
        ensures quiet { OnOk result (S.faults source.new ≡ S.faults source.old) }
        ensures never_falls { S.faults source.old ≤ S.faults source.new }
        ensures same_lent { S.lent source.new ≡ S.lent source.old }
    {
        read_on(source, &mut self.bytes, &mut self.start, &mut self.end)
    }
}
