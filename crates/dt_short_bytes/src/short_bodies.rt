ghost use Rattle.std.specs.Prelude.{◌≡◌, ◌≤◌, ◌<◌, ◌+◌, ◌^◌, ◌++◌, ◌∷◌, length, take, OnOk, if◌then◌else◌, []};
ghost use Rattle.dt_record.specs.Spelling.{number_fields, line_bytes, masked_bytes};
ghost use Rattle.dt_short_bytes.specs.ShortReading.{below, flag_at, next_byte, line_after, spread, retire_at, atomic_at, body_at};

use dt_record::{Body, Kind, Retire};
use std::alloc::AllocError;

fn byte_of(number: u64) -> Option<u8>
    ensures { result ≡ below (2 ^ 8) number }
{
    u8::try_from(number).ok()
}

fn half_of(number: u64) -> Option<u16>
    ensures { result ≡ below (2 ^ 16) number }
{
    u16::try_from(number).ok()
}

fn word_of(number: u64) -> Option<u32>
    ensures { result ≡ below (2 ^ 32) number }
{
    u32::try_from(number).ok()
}

fn flag_of(number: u64) -> Option<bool>
    ensures { result ≡ flag_at number }
{
    match number {
        0 => Some(false),
        1 => Some(true),
        _ => None,
    }
}

/// The byte at a place of a line and the bytes after it: 0 where none was spelled for the place.
fn next_of(is_masked: bool, line: &[u8]) -> (u8, &[u8])
    ensures byte { result.0 ≡ next_byte is_masked line.now }
    ensures after { result.1.now ≡ line_after is_masked line.now }
{
    if !is_masked {
        return (0, line);
    }
    match line {
        [] => (0, line),
        [first, rest @ ..] => (*first, rest),
    }
}

/// A whole line from the bytes whose mask bit is set.
fn spread_of(mask: u64, line: &[u8]) -> [u8; 64]
    ensures { result ≡ spread 64 mask line.now }
{
    let mut bytes = [0; 64];
    let mut rest = line;
    let mut bits = mask;
    for i in 0..64 {
        let (byte, after) = next_of(bits % 2 == 1, rest);
        bytes[i] = byte;
        rest = after;
        bits /= 2;
    }
    bytes
}

fn retire_of(numbers: &[u64; 32]) -> Option<Retire>
    ensures { result ≡ retire_at numbers.now }
{
    let bits = word_of(numbers[1])?;
    Some(Retire {
        pc: numbers[0],
        bits,
        value: numbers[2],
    })
}

/// The body that these number fields and these bytes of a line are of, if each number fits its field.
pub(crate) fn body_of(kind: Kind, numbers: &[u64; 32], line: &[u8]) -> Option<Body>
    ensures { result ≡ body_at kind numbers.now line.now }
{
    match kind {
        Kind::Commit => {
            let retire = retire_of(numbers)?;
            Some(Body::Commit { retire })
        }
        Kind::Trap => {
            let bits = word_of(numbers[1])?;
            Some(Body::Trap {
                pc: numbers[0],
                bits,
                cause: numbers[2],
                tval: numbers[3],
            })
        }
        Kind::Regs => {
            let mut x = [0; 31];
            x.copy_from_slice(&numbers[1..32]);
            Some(Body::Regs { pc: numbers[0], x })
        }
        Kind::Csrs => {
            let mode = byte_of(numbers[0])?;
            let mut v = [0; 17];
            v.copy_from_slice(&numbers[1..18]);
            Some(Body::Csrs { mode, v })
        }
        Kind::Load => {
            let retire = retire_of(numbers)?;
            Some(Body::Load {
                retire,
                at: numbers[3],
                paddr: numbers[4],
            })
        }
        Kind::Store => {
            let bits = word_of(numbers[1])?;
            Some(Body::Store {
                pc: numbers[0],
                bits,
                paddr: numbers[2],
                value: numbers[3],
            })
        }
        Kind::Atomic => atomic_of(numbers),
        Kind::Drain => {
            let count = half_of(numbers[2])?;
            Some(Body::Drain {
                line: numbers[0],
                mask: numbers[1],
                count,
                bytes: spread_of(numbers[1], line),
            })
        }
        Kind::Refill => {
            let bytes = *line.first_chunk::<64>()?;
            Some(Body::Refill {
                line: numbers[0],
                bytes,
            })
        }
        Kind::Beat => Some(Body::Beat),
    }
}

fn atomic_of(numbers: &[u64; 32]) -> Option<Body>
    ensures { result ≡ atomic_at numbers.now }
{
    let retire = retire_of(numbers)?;
    let width = byte_of(numbers[4])?;
    let wrote = flag_of(numbers[5])?;
    Some(Body::Atomic {
        retire,
        paddr: numbers[3],
        width,
        wrote,
        new: numbers[6],
    })
}

/// Some numbers and their count.
fn fields_with(fields: &[u64]) -> ([u64; 32], usize)
    requires { length fields.now ≤ 32 }
    ensures numbers { take result.1 result.0 ≡ fields.now }
    ensures count { result.1 ≤ 32 }
{
    let mut numbers = [0; 32];
    numbers[..fields.len()].copy_from_slice(fields);
    (numbers, fields.len())
}

/// A number and others behind it, with their count.
fn fields_behind(first: u64, others: &[u64]) -> ([u64; 32], usize)
    requires { length others.now < 32 }
    ensures numbers { take result.1 result.0 ≡ first ∷ others.now }
    ensures count { result.1 ≤ 32 }
{
    let mut numbers = [0; 32];
    numbers[0] = first;
    numbers[1..=others.len()].copy_from_slice(others);
    (numbers, others.len() + 1)
}

/// The number fields of a body, and how many they are.
pub(crate) fn numbers_of(body: &Body) -> ([u64; 32], usize)
    ensures numbers { take result.1 result.0 ≡ number_fields body.now }
    ensures count { result.1 ≤ 32 }
{
    match body {
        Body::Commit { retire } => {
            fields_with(&[retire.pc, u64::from(retire.bits), retire.value])
        }
        Body::Trap {
            pc,
            bits,
            cause,
            tval,
        } => fields_with(&[*pc, u64::from(*bits), *cause, *tval]),
        Body::Regs { pc, x } => fields_behind(*pc, x),
        Body::Csrs { mode, v } => fields_behind(u64::from(*mode), v),
        Body::Load { retire, at, paddr } => {
            fields_with(&[retire.pc, u64::from(retire.bits), retire.value, *at, *paddr])
        }
        Body::Store {
            pc,
            bits,
            paddr,
            value,
        } => fields_with(&[*pc, u64::from(*bits), *paddr, *value]),
        Body::Atomic {
            retire,
            paddr,
            width,
            wrote,
            new,
        } => fields_with(&[
            retire.pc,
            u64::from(retire.bits),
            retire.value,
            *paddr,
            u64::from(*width),
            u64::from(*wrote),
            *new,
        ]),
        Body::Drain {
            line,
            mask,
            count,
            ..
        } => fields_with(&[*line, *mask, u64::from(*count)]),
        Body::Refill { line, .. } => fields_with(&[*line]),
        Body::Beat => fields_with(&[]),
    }
}

fn push_if(out: &mut Vec<u8>, is_masked: bool, byte: u8) -> Result<(), AllocError>
    ensures { OnOk result (out.new.items ≡ out.old.items ++ (if is_masked then byte ∷ [] else [])) }
{
    if is_masked {
        out.push(byte)?;
    }
    Ok(())
}

fn push_masked(out: &mut Vec<u8>, mask: u64, bytes: &[u8]) -> Result<(), AllocError>
    ensures { OnOk result (out.new.items ≡ out.old.items ++ masked_bytes mask bytes.now) }
{
    let mut bits = mask;
    for byte in bytes {
        push_if(out, bits % 2 == 1, *byte)?;
        bits /= 2;
    }
    Ok(())
}

/// Appends the bytes of a body's line that are spelled.
pub(crate) fn push_line(out: &mut Vec<u8>, body: &Body) -> Result<(), AllocError>
    ensures { OnOk result (out.new.items ≡ out.old.items ++ line_bytes body.now) }
{
    match body {
        Body::Drain { mask, bytes, .. } => push_masked(out, *mask, bytes),
        Body::Refill { bytes, .. } => out.extend_from_slice(bytes),
        _ => Ok(()),
    }
}
