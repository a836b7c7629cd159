ghost use Rattle.std.specs.Prelude.{◌≡◌, ◌≢◌, ◌<◌, ◌≤◌, ℕ, IsTrue, ◌↔◌, ◌^◌, length, take, drop, slice_index};
ghost use Rattle.dt_record.specs.ProbeFile.{IsNext};
ghost use Rattle.dt_record.specs.Spelling.{double, end_bytes, record_bytes};
ghost use Rattle.dt_record.specs.Versions.{version_of};
ghost use Rattle.dt_probe_file.specs.Begun.{HasTag};
ghost use Rattle.dt_probe_file.specs.Fronts.{IsSound, IsFront, IsDecoded, IsEndFront, reading_of};

use crate::reading::Opened;
use dt_record::{Record, Version};
use dt_record_bytes::{Decoded, decode};
use dt_short_bytes::decode2;

/// The tag of an end.
const END: u8 = 255;

/// How many bytes an end has.
pub(crate) const END_LEN: usize = 9;

/// What stands at the front of bytes.
#[derive(Clone, Copy, Debug)]
pub(crate) enum Front {
    /// A record that may stand there, and how many bytes are its spelling.
    Event { event: Record, len: usize },
    /// The end of so many records as came.
    End,
    /// No such record or end, but more bytes may make it one.
    Begun,
    /// No such record or end, whatever follows.
    Wrong,
}

/// The last stamp of the hart that the bytes of a record name, as far as they are there.
fn last_of(last: &[u64; 8], bytes: &[u8]) -> u64
    ensures named { 2 ≤ length bytes.now → result ≡ slice_index last.now (slice_index bytes.now 1) }
    ensures unnamed { length bytes.now < 2 → result ≡ 0 }
{
    match bytes.get(1) {
        Some(hart) if *hart < 8 => last[usize::from(*hart)],
        _ => 0,
    }
}

/// What bytes are as a record of a version, after records with these last stamps.
fn decode_in(version: Version, last: &[u64; 8], bytes: &[u8]) -> Decoded
    ensures { IsDecoded (version_of version) (λ hart. slice_index last.now hart) bytes.now result }
{
    match version {
        Version::One => decode(bytes),
        Version::Two => decode2(bytes, last_of(last, bytes)),
    }
}

fn may_follow(opened: &Opened, event: &Record) -> bool
    requires { IsSound opened.now }
    ensures { IsTrue result ↔ (event.now.hart < opened.now.harts) × (slice_index opened.now.last event.now.hart ≤ event.now.stamp) }
{
    event.hart < opened.harts && opened.last[usize::from(event.hart)] <= event.stamp
}

/// The count of an end, behind its tag.
fn count_of(bytes: &[u8]) -> u64
    requires { 9 ≤ length bytes.now }
    ensures spelled { double result ≡ take 8 (drop 1 bytes.now) }
    ensures fits { result < 2 ^ 64 }
{
    let mut field = [0; 8];
    field.copy_from_slice(&bytes[1..END_LEN]);
    u64::from_le_bytes(field)
}

/// What stands at the front of bytes that begin with an end's tag.
fn end_front(events: u64, bytes: &[u8]) -> Front
    requires tag { HasTag 255 bytes.now }
    requires few { events < 2 ^ 64 }
    ensures { IsEndFront events bytes.now result }
{
    if bytes.len() < END_LEN {
        return Front::Begun;
    }
    if count_of(bytes) == events {
        Front::End
    } else {
        Front::Wrong
    }
}

/// What stands at the front of bytes that begin with another tag.
fn record_front(opened: &Opened, bytes: &[u8]) -> Front
    requires sound { IsSound opened.now }
    requires some { 0 < length bytes.now }
    requires tag { slice_index bytes.now 0 ≢ 255 }
    ensures { IsFront (reading_of opened.now) bytes.now result }
{
    match decode_in(opened.version, &opened.last, bytes) {
        Decoded::Got { event, len } => {
            if may_follow(opened, &event) {
                Front::Event { event, len }
            } else {
                Front::Wrong
            }
        }
        Decoded::Short => Front::Begun,
        Decoded::Bad { .. } => Front::Wrong,
    }
}

/// What stands at the front of bytes behind a header or a record.
pub(crate) fn front_of(opened: &Opened, bytes: &[u8]) -> Front
    requires { IsSound opened.now }
    ensures { IsFront (reading_of opened.now) bytes.now result }
{
    if bytes.is_empty() {
        return Front::Begun;
    }
    if bytes[0] == END {
        end_front(opened.events, bytes)
    } else {
        record_front(opened, bytes)
    }
}
