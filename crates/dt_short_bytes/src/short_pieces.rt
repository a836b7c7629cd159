ghost use Rattle.std.specs.Prelude.{◌≤◌, ◌<◌, ◌+◌, ◌*◌, ◌^◌, ◌/◌, IfOk};
ghost use Rattle.dt_short_bytes.specs.ShortReading.{Gives, kind_at, byte_from, presence_at, field_at, padded_at, line_at, read_at};
ghost use Rattle.dt_short_bytes.specs.ShortPieces.{read_of};

use crate::short_kinds::{fields_of, line_len};
use crate::varints::{read_groups, read_varint};
use dt_record::Kind;

/// Why no form stands at the front of some bytes.
#[derive(Clone, Copy, Debug, PartialEq, Eq)]
pub(crate) enum Stop {
    /// The bytes end inside of it.
    Short,
    /// Its next byte fits no form. So many bytes are left, with this one.
    Bad { left: usize },
}

/// What a form says, whatever its numbers are.
#[derive(Clone, Copy)]
pub(crate) struct Pieces<'a> {
    pub kind: Kind,
    pub hart: u8,
    /// The stamp minus the last one.
    pub later: u64,
    /// The number fields, 0 behind the last.
    pub numbers: [u64; 32],
    pub line: &'a [u8],
}

#[tactic(auto, unfolding(crate::specs::ShortReading::kind_at))]
fn read_kind(b: &[u8]) -> Result<(Kind, &[u8]), Stop>
    ensures { Gives (λ x. (x.0, x.1.now)) result (kind_at b.now) }
{
    match b {
        [] => Err(Stop::Short),
        [tag, rest @ ..] => match Kind::with_tag(*tag) {
            Some(kind) => Ok((kind, rest)),
            None => Err(Stop::Bad { left: b.len() }),
        },
    }
}

#[tactic(auto, unfolding(crate::specs::ShortReading::byte_from))]
fn read_byte(b: &[u8]) -> Result<(u8, &[u8]), Stop>
    ensures { Gives (λ x. (x.0, x.1.now)) result (byte_from b.now) }
{
    match b {
        [] => Err(Stop::Short),
        [first, rest @ ..] => Ok((*first, rest)),
    }
}

/// The presence bits of so many fields, from so many bytes. Bits past the last field are 0.
fn read_presence(b: &[u8], bytes: u8, fields: u8) -> Result<(u64, &[u8]), Stop>
    requires few_bytes { bytes ≤ 4 }
    requires few_fields { fields ≤ 32 }
    ensures gives { Gives (λ x. (x.0, x.1.now)) result (presence_at bytes fields b.now) }
    ensures bound { IfOk result (λ x. x.0 < 2 ^ (8 * bytes)) }
{
    if bytes == 0 {
        return Ok((0, b));
    }
    match b {
        [] => Err(Stop::Short),
        [first, rest @ ..] => {
            if u64::from(*first) >= 1 << fields {
                return Err(Stop::Bad { left: b.len() });
            }
            let (high, rest) = read_presence(rest, bytes - 1, fields.saturating_sub(8))?;
            Ok((u64::from(*first) + 256 * high, rest))
        }
    }
}

#[tactic(auto, unfolding(crate::specs::ShortReading::field_at))]
fn read_field(b: &[u8], is_present: bool) -> Result<(u64, &[u8]), Stop>
    ensures { Gives (λ x. (x.0, x.1.now)) result (field_at is_present b.now) }
{
    if is_present {
        read_groups(b, 9)
    } else {
        Ok((0, b))
    }
}

/// The number fields, of which those with a presence bit are spelled.
fn read_fields(b: &[u8], fields: u8, presence: u64) -> Result<([u64; 32], &[u8]), Stop>
    requires { fields ≤ 32 }
    ensures { Gives (λ x. (x.0, x.1.now)) result (padded_at fields presence b.now) }
{
    let mut numbers = [0; 32];
    let mut rest = b;
    let mut bits = presence;
    for i in 0..usize::from(fields) {
        let (number, after) = read_field(rest, bits % 2 == 1)?;
        numbers[i] = number;
        rest = after;
        bits /= 2;
    }
    Ok((numbers, rest))
}

#[tactic(auto, unfolding(crate::specs::ShortReading::line_at))]
fn read_line(b: &[u8], len: usize) -> Result<(&[u8], &[u8]), Stop>
    ensures { Gives (λ x. (x.0.now, x.1.now)) result (line_at len b.now) }
{
    if b.len() < len {
        return Err(Stop::Short);
    }
    Ok(b.split_at(len))
}

/// The form at the front, and the bytes behind it.
#[tactic(auto, unfolding(crate::specs::ShortReading::read_at))]
pub(crate) fn read_form(b: &[u8]) -> Result<(Pieces<'_>, &[u8]), Stop>
    ensures { Gives (λ x. (read_of x.0, x.1.now)) result (read_at b.now) }
{
    let (kind, rest) = read_kind(b)?;
    let (hart, rest) = read_byte(rest)?;
    let (later, rest) = read_varint(rest)?;
    let fields = fields_of(kind);
    let (presence, rest) = read_presence(rest, fields.div_ceil(8), fields)?;
    let (numbers, rest) = read_fields(rest, fields, presence)?;
    let (line, rest) = read_line(rest, line_len(kind, &numbers))?;
    let pieces = Pieces {
        kind,
        hart,
        later,
        numbers,
        line,
    };
    Ok((pieces, rest))
}
