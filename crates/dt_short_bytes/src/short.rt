ghost use Rattle.std.specs.Prelude.{◌≡◌, ℕ, List, ◌≤◌, ◌<◌, ◌+◌, ◌/◌, ◌++◌, ◌↔◌, length, OnOk, OnErr, Some, None};
ghost use Rattle.std.specs.List.{flat_map};
ghost use Rattle.dt_record.specs.declared.records.Record.{Record};
ghost use Rattle.dt_record.specs.Lawful.{IsLawful};
ghost use Rattle.dt_record.specs.Spelling.{presence, presence_bytes, present_bytes, short_bytes};
ghost use Rattle.dt_short_bytes.specs.ShortForms.{IsGot, IsUnfinished, IsBad, StartsWith};
ghost use Rattle.dt_short_bytes.specs.ShortPieces.{read_of};
ghost use Rattle.dt_short_bytes.specs.ShortReading.{record_at, decoded_at, if_lawful};

use crate::short_bodies::{body_of, numbers_of, push_line};
use crate::short_pieces::{Pieces, Stop, read_form};
use crate::varints::push_varint;
use dt_record::{Record, lawful, tag_of};
use dt_record_bytes::Decoded;
use std::alloc::AllocError;

/// The length of the longest form: that of a record of all registers.
pub const LONGEST_FORM: usize = 336;

/// One bit for each number: whether it isn't 0. The first number has the lowest bit.
fn presence_of(numbers: &[u64]) -> u32
    requires { length numbers.now ≤ 32 }
    ensures { result ≡ presence numbers.now }
{
    let mut bits: u64 = 0;
    let mut left = numbers.len();
    while left > 0 {
        left -= 1;
        bits = 2 * bits + u64::from(numbers[left] != 0);
    }
    bits as u32
}

fn push_presence(out: &mut Vec<u8>, numbers: &[u64]) -> Result<(), AllocError>
    requires { length numbers.now ≤ 32 }
    ensures { OnOk result (out.new.items ≡ out.old.items ++ presence_bytes numbers.now) }
{
    let bits = presence_of(numbers).to_le_bytes();
    out.extend_from_slice(&bits[..numbers.len().div_ceil(8)])
}

fn push_present(out: &mut Vec<u8>, number: u64) -> Result<(), AllocError>
    ensures { OnOk result (out.new.items ≡ out.old.items ++ present_bytes number) }
{
    if number != 0 {
        push_varint(out, number)?;
    }
    Ok(())
}

fn push_numbers(out: &mut Vec<u8>, numbers: &[u64]) -> Result<(), AllocError>
    ensures { OnOk result (out.new.items ≡ out.old.items ++ flat_map present_bytes numbers.now) }
{
    for number in numbers {
        push_present(out, *number)?;
    }
    Ok(())
}

/// Appends the spelling of a lawful record in version 2, where `last` is the stamp of the record before
/// it of the same hart, or 0. After an `Err` nothing is appended.
#[tactic(auto, unfolding(dt_record::specs::Spelling::short_bytes))]
pub fn encode2(event: &Record, last: u64, out: &mut Vec<u8>) -> Result<(), AllocError>
    requires lawful { IsLawful event.now }
    requires stamp { last ≤ event.now.stamp }
    ensures ok { OnOk result (out.new.items ≡ out.old.items ++ short_bytes last event.now) }
    ensures err { OnErr result (out.new.items ≡ out.old.items) }
{
    let (numbers, count) = numbers_of(&event.body);
    let fields = &numbers[..count];
    let mut text = Vec::new(*out.allocator());
    text.push(tag_of(&event.body))?;
    text.push(event.hart)?;
    push_varint(&mut text, event.stamp - last)?;
    push_presence(&mut text, fields)?;
    push_numbers(&mut text, fields)?;
    push_line(&mut text, &event.body)?;
    out.extend_from_slice(&text)
}

fn lawful_only(event: Record) -> Option<Record>
    ensures { result ≡ if_lawful event }
{
    if lawful(&event) { Some(event) } else { None }
}

/// The lawful record that a form says, if each number fits its field and the stamp its 64 bits.
#[tactic(auto, unfolding(crate::specs::ShortReading::record_at))]
fn record_of(pieces: &Pieces, last: u64) -> Option<Record>
    ensures { result ≡ record_at last (read_of pieces.now) }
{
    let stamp = last.checked_add(pieces.later)?;
    let body = body_of(pieces.kind, &pieces.numbers, pieces.line)?;
    lawful_only(Record {
        stamp,
        hart: pieces.hart,
        body,
    })
}

#[tactic(auto, unfolding(crate::specs::ShortReading::decoded_at))]
fn decoded(b: &[u8], last: u64) -> Decoded
    ensures { result ≡ decoded_at last b.now }
{
    match read_form(b) {
        Ok((pieces, rest)) => match record_of(&pieces, last) {
            Some(event) => Decoded::Got {
                event,
                len: b.len() - rest.len(),
            },
            None => Decoded::Bad { at: 0 },
        },
        Err(Stop::Short) => Decoded::Short,
        Err(Stop::Bad { left }) => Decoded::Bad { at: b.len() - left },
    }
}

/// What stands at the front in version 2, where `last` is the stamp of the record before it of the same
/// hart, or 0. It takes no memory.
pub fn decode2(b: &[u8], last: u64) -> Decoded
    // Got: a lawful record's spelling, and how long it is.
    ensures got { (event : Record) (len : ℕ) → (result ≡ Decoded.Got event len) ↔ IsGot last b.now event len }
    // Short: the bytes are the beginning of a form.
    ensures short { (result ≡ Decoded.Short) ↔ IsUnfinished b.now }
    // Bad: neither of both.
    ensures bad { (at : ℕ) → (result ≡ Decoded.Bad at) ↔ IsBad last b.now at }

    // How many bytes a record takes, and at most how many are Short.
    ensures got_len { (event : Record) (len : ℕ) → result ≡ Decoded.Got event len
        → (3 ≤ len) × (len ≤ length b.now) × (len ≤ LONGEST_FORM) }
    ensures short_len { result ≡ Decoded.Short → length b.now < LONGEST_FORM }
    // Short: no record stands at the front. Bad: none does, whatever follows.
    ensures not_yet { result ≡ Decoded.Short → (event : Record) (rest : List ℕ) → StartsWith last b.now event rest → ⊥ }
    ensures for_good { (at : ℕ) → result ≡ Decoded.Bad at → (more : List ℕ) (event : Record) (rest : List ℕ)
        → StartsWith last (b.now ++ more) event rest → ⊥ }
{
    decoded(b, last)
}
