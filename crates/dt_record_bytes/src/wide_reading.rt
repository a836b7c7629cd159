ghost use Rattle.std.specs.Prelude.{◌≡◌, ◌+◌, ◌*◌, ◌^◌, ◌≤◌, ◌++◌, List, ℕ, length, slice_index, IsSomeAnd};
ghost use Rattle.std.specs.List.{flat_map};
ghost use Rattle.dt_record.specs.Tags.{tag_number};
ghost use Rattle.dt_record.specs.Spelling.{half, word, double, retire_bytes};
ghost use Rattle.dt_record.specs.Lawful.{FitsRetire, FitsList, FitsBody};
ghost use Rattle.dt_record_bytes.specs.WideAnswer.{wide_length, body_bytes_with, wide_bytes_with, IsWroteByte, HasFields};

use dt_record::{Body, Record, Retire};

/// A record's fields as they stand in bytes, whatever bounds they break.
#[derive(Clone, Copy)]
pub(crate) struct Fields {
    pub(crate) event: Record,
    /// The byte for whether an atomic wrote, which may be none that a record has; else 0.
    pub(crate) wrote_byte: u8,
}

/// How many bytes the spelling of a kind has, by its tag.
pub(crate) fn length_of(tag: u8) -> Option<usize>
    ensures { result ≡ wide_length tag }
{
    match tag {
        1 => Some(30),
        2 => Some(38),
        3 => Some(266),
        4 => Some(147),
        5 => Some(46),
        6 => Some(38),
        7 => Some(48),
        8 => Some(92),
        9 => Some(82),
        10 => Some(10),
        _ => None,
    }
}

fn take_half(bytes: &[u8]) -> (u16, &[u8])
    requires { 2 ≤ length bytes.now }
    ensures spelled { bytes.now ≡ half result.0 ++ result.1.now }
    ensures rest { length result.1.now + 2 ≡ length bytes.now }
{
    let (front, rest) = bytes.split_at(2);
    let mut field = [0; 2];
    field.copy_from_slice(front);
    (u16::from_le_bytes(field), rest)
}

fn take_word(bytes: &[u8]) -> (u32, &[u8])
    requires { 4 ≤ length bytes.now }
    ensures spelled { bytes.now ≡ word result.0 ++ result.1.now }
    ensures rest { length result.1.now + 4 ≡ length bytes.now }
{
    let (front, rest) = bytes.split_at(4);
    let mut field = [0; 4];
    field.copy_from_slice(front);
    (u32::from_le_bytes(field), rest)
}

/// The number in the first eight bytes, and the bytes after them.
fn take_double(bytes: &[u8]) -> (u64, &[u8])
    requires { 8 ≤ length bytes.now }
    ensures spelled { bytes.now ≡ double result.0 ++ result.1.now }
    ensures rest { length result.1.now + 8 ≡ length bytes.now }
{
    let (front, rest) = bytes.split_at(8);
    let mut field = [0; 8];
    field.copy_from_slice(front);
    (u64::from_le_bytes(field), rest)
}

/// Fills the numbers, and gives the bytes after them.
fn take_doubles<'a>(bytes: &'a [u8], numbers: &mut [u64]) -> &'a [u8]
    requires { 8 * length numbers.old ≤ length bytes.now }
    ensures spelled { bytes.now ≡ flat_map double numbers.new ++ result.now }
    ensures rest { length result.now + 8 * length numbers.old ≡ length bytes.now }
    ensures fits { FitsList (length numbers.old) (2 ^ 64) numbers.new }
{
    let mut rest = bytes;
    for number in numbers.iter_mut() {
        let (value, after) = take_double(rest);
        *number = value;
        rest = after;
    }
    rest
}

/// The bytes of a line, and the bytes after them.
fn take_line(bytes: &[u8]) -> ([u8; 64], &[u8])
    requires { 64 ≤ length bytes.now }
    ensures spelled { bytes.now ≡ result.0 ++ result.1.now }
    ensures fits { FitsList 64 (2 ^ 8) result.0 }
{
    let (front, rest) = bytes.split_at(64);
    let mut line = [0; 64];
    line.copy_from_slice(front);
    (line, rest)
}

fn take_retire(bytes: &[u8]) -> (Retire, &[u8])
    requires { 20 ≤ length bytes.now }
    ensures spelled { bytes.now ≡ retire_bytes result.0 ++ result.1.now }
    ensures rest { length result.1.now + 20 ≡ length bytes.now }
    ensures fits { FitsRetire result.0 }
{
    let (pc, rest) = take_double(bytes);
    let (bits, rest) = take_word(rest);
    let (value, rest) = take_double(rest);
    (Retire { pc, bits, value }, rest)
}

fn take_commit(bytes: &[u8]) -> (Body, &[u8])
    requires { 20 ≤ length bytes.now }
    ensures spelled { bytes.now ≡ body_bytes_with 0 result.0 ++ result.1.now }
    ensures kind { tag_number result.0 ≡ 1 }
    ensures fits { FitsBody result.0 }
    ensures wrote { IsWroteByte 0 result.0 }
{
    let (retire, rest) = take_retire(bytes);
    (Body::Commit { retire }, rest)
}

fn take_trap(bytes: &[u8]) -> (Body, &[u8])
    requires { 28 ≤ length bytes.now }
    ensures spelled { bytes.now ≡ body_bytes_with 0 result.0 ++ result.1.now }
    ensures kind { tag_number result.0 ≡ 2 }
    ensures fits { FitsBody result.0 }
    ensures wrote { IsWroteByte 0 result.0 }
{
    let (pc, rest) = take_double(bytes);
    let (bits, rest) = take_word(rest);
    let (cause, rest) = take_double(rest);
    let (tval, rest) = take_double(rest);
    let body = Body::Trap {
        pc,
        bits,
        cause,
        tval,
    };
    (body, rest)
}

fn take_regs(bytes: &[u8]) -> (Body, &[u8])
    requires { 256 ≤ length bytes.now }
    ensures spelled { bytes.now ≡ body_bytes_with 0 result.0 ++ result.1.now }
    ensures kind { tag_number result.0 ≡ 3 }
    ensures fits { FitsBody result.0 }
    ensures wrote { IsWroteByte 0 result.0 }
{
    let (pc, rest) = take_double(bytes);
    let mut x = [0; 31];
    let rest = take_doubles(rest, &mut x);
    (Body::Regs { pc, x }, rest)
}

fn take_csrs(bytes: &[u8]) -> (Body, &[u8])
    requires { 137 ≤ length bytes.now }
    ensures spelled { bytes.now ≡ body_bytes_with 0 result.0 ++ result.1.now }
    ensures kind { tag_number result.0 ≡ 4 }
    ensures fits { FitsBody result.0 }
    ensures wrote { IsWroteByte 0 result.0 }
{
    let mode = bytes[0];
    let mut v = [0; 17];
    let rest = take_doubles(&bytes[1..], &mut v);
    (Body::Csrs { mode, v }, rest)
}

fn take_load(bytes: &[u8]) -> (Body, &[u8])
    requires { 36 ≤ length bytes.now }
    ensures spelled { bytes.now ≡ body_bytes_with 0 result.0 ++ result.1.now }
    ensures kind { tag_number result.0 ≡ 5 }
    ensures fits { FitsBody result.0 }
    ensures wrote { IsWroteByte 0 result.0 }
{
    let (retire, rest) = take_retire(bytes);
    let (at, rest) = take_double(rest);
    let (paddr, rest) = take_double(rest);
    (Body::Load { retire, at, paddr }, rest)
}

fn take_store(bytes: &[u8]) -> (Body, &[u8])
    requires { 28 ≤ length bytes.now }
    ensures spelled { bytes.now ≡ body_bytes_with 0 result.0 ++ result.1.now }
    ensures kind { tag_number result.0 ≡ 6 }
    ensures fits { FitsBody result.0 }
    ensures wrote { IsWroteByte 0 result.0 }
{
    let (pc, rest) = take_double(bytes);
    let (bits, rest) = take_word(rest);
    let (paddr, rest) = take_double(rest);
    let (value, rest) = take_double(rest);
    let body = Body::Store {
        pc,
        bits,
        paddr,
        value,
    };
    (body, rest)
}

/// An atomic, and its byte for whether it wrote.
fn take_atomic(bytes: &[u8]) -> (Body, u8, &[u8])
    requires { 38 ≤ length bytes.now }
    ensures spelled { bytes.now ≡ body_bytes_with result.1 result.0 ++ result.2.now }
    ensures kind { tag_number result.0 ≡ 7 }
    ensures fits { FitsBody result.0 }
    ensures wrote { IsWroteByte result.1 result.0 }
{
    let (retire, rest) = take_retire(bytes);
    let (paddr, rest) = take_double(rest);
    let width = rest[0];
    let wrote_byte = rest[1];
    let (new, rest) = take_double(&rest[2..]);
    let body = Body::Atomic {
        retire,
        paddr,
        width,
        wrote: wrote_byte != 0,
        new,
    };
    (body, wrote_byte, rest)
}

fn take_drain(bytes: &[u8]) -> (Body, &[u8])
    requires { 82 ≤ length bytes.now }
    ensures spelled { bytes.now ≡ body_bytes_with 0 result.0 ++ result.1.now }
    ensures kind { tag_number result.0 ≡ 8 }
    ensures fits { FitsBody result.0 }
    ensures wrote { IsWroteByte 0 result.0 }
{
    let (line, rest) = take_double(bytes);
    let (mask, rest) = take_double(rest);
    let (count, rest) = take_half(rest);
    let (bytes, rest) = take_line(rest);
    let body = Body::Drain {
        line,
        mask,
        count,
        bytes,
    };
    (body, rest)
}

fn take_refill(bytes: &[u8]) -> (Body, &[u8])
    requires { 72 ≤ length bytes.now }
    ensures spelled { bytes.now ≡ body_bytes_with 0 result.0 ++ result.1.now }
    ensures kind { tag_number result.0 ≡ 9 }
    ensures fits { FitsBody result.0 }
    ensures wrote { IsWroteByte 0 result.0 }
{
    let (line, rest) = take_double(bytes);
    let (bytes, rest) = take_line(rest);
    (Body::Refill { line, bytes }, rest)
}

/// The fields of a kind, the byte for whether an atomic wrote, and the bytes after them.
fn take_body(tag: u8, bytes: &[u8]) -> (Body, u8, &[u8])
    requires { IsSomeAnd (wide_length tag) (λ len. len ≤ length bytes.now + 10) }
    ensures spelled { bytes.now ≡ body_bytes_with result.1 result.0 ++ result.2.now }
    ensures kind { tag_number result.0 ≡ tag }
    ensures fits { FitsBody result.0 }
    ensures wrote { IsWroteByte result.1 result.0 }
{
    if tag == 7 {
        return take_atomic(bytes);
    }
    let (body, rest) = match tag {
        1 => take_commit(bytes),
        2 => take_trap(bytes),
        3 => take_regs(bytes),
        4 => take_csrs(bytes),
        5 => take_load(bytes),
        6 => take_store(bytes),
        8 => take_drain(bytes),
        9 => take_refill(bytes),
        _ => (Body::Beat, bytes),
    };
    (body, 0, rest)
}

/// The fields of the record that the bytes begin with.
#[tactic(auto, unfolding(crate::specs::WideAnswer::wide_bytes_with))]
pub(crate) fn fields_of(bytes: &[u8]) -> Fields
    requires some { 1 ≤ length bytes.now }
    requires whole { IsSomeAnd (wide_length (slice_index bytes.now 0)) (λ len. len ≤ length bytes.now) }
    ensures kind { tag_number result.event.body ≡ slice_index bytes.now 0 }
    ensures fields { (rest : List ℕ) × HasFields bytes.now result.event result.wrote_byte rest }
{
    let tag = bytes[0];
    let hart = bytes[1];
    let (stamp, rest) = take_double(&bytes[2..]);
    let (body, wrote_byte, _) = take_body(tag, rest);
    let event = Record { stamp, hart, body };
    Fields { event, wrote_byte }
}
