ghost use Rattle.std.specs.Prelude.{◌≡◌, ℕ, ◌+◌, ◌-◌, ◌*◌, ◌%◌, ◌^◌, ◌≤◌, ◌⊎◌, ◌++◌, IsTrue, length, take, drop};
ghost use Rattle.dt_record.specs.Lawful.{IsLawful, is_atomic_place};
ghost use Rattle.dt_record.specs.Lent.{record_of};
ghost use Rattle.dt_record.specs.Writes.{write_of_record, write_of_atomic, writes_memory, width_mask, line_with};

use crate::keys::Key;
use crate::lent::{BodyAt, RecordAt, line_of};
use crate::records::{Body, Record};

/// A write to memory, within one 64-byte line. Bit i of the mask says whether byte i is written; a
/// byte that is not is 0 here.
#[derive(Clone, Copy, Debug, PartialEq, Eq)]
pub struct Write {
    /// The key of the record that wrote.
    pub key: Key,
    /// The line's address, a multiple of 64 inside RAM.
    pub line: u64,
    pub mask: u64,
    pub bytes: [u8; 64],
}

/// What workers tell one another through the shared record.
#[derive(Clone, Copy, Debug, PartialEq, Eq)]
pub enum Note {
    /// A write, announced by the worker of its hart.
    Wrote(Write),
    /// All writes of the hart with a stamp below this one stand before this note.
    Mark { hart: u8, stamp: u64 },
    /// All writes of the hart stand before this note.
    End { hart: u8 },
    /// All records of the hart with a stamp below the cut were judged without a reason.
    Cut { hart: u8, cut: u64 },
    /// The hart's judged records end with a failure at this key.
    Failure { key: Key },
}

/// What there is too much of in a probe file.
#[derive(Clone, Copy, Debug, PartialEq, Eq)]
pub enum What {
    Records,
    Writes,
}

/// Whether the record writes memory: a drain always, an atomic where it says so.
pub fn writes_memory(event: &Record) -> bool
    ensures { result ≡ writes_memory event.now }
{
    match event.body {
        Body::Drain { .. } => true,
        Body::Atomic { wrote, .. } => wrote,
        _ => false,
    }
}

/// The write that a lawful record makes, where it makes one: that of a drain, or of an atomic that
/// wrote. `seq` is the record's number among its hart's records.
pub fn write_of(event: &Record, seq: u32) -> Option<Write>
    requires { IsLawful event.now }
    ensures { result ≡ write_of_record seq event.now }
{
    write_of_at(&event.lent(), seq)
}

/// The same of a record whose long fields are lent.
pub fn write_of_at(event: &RecordAt<'_>, seq: u32) -> Option<Write>
    requires { IsLawful (record_of event.now) }
    ensures { result ≡ write_of_record seq (record_of event.now) }
{
    let key = Key {
        stamp: event.stamp,
        hart: event.hart,
        seq,
    };
    match event.body {
        BodyAt::Drain {
            line,
            mask,
            bytes,
            ..
        } => Some(Write {
            key,
            line,
            mask,
            bytes: line_of(bytes),
        }),
        BodyAt::Atomic {
            paddr,
            width,
            wrote,
            new,
            ..
        } if wrote => Some(atomic_write(key, paddr, width, new)),
        _ => None,
    }
}

fn atomic_write(key: Key, paddr: u64, width: u8, new: u64) -> Write
    requires { IsTrue (is_atomic_place paddr width) }
    ensures { result ≡ write_of_atomic key paddr width new }
{
    let place = paddr % 64;
    Write {
        key,
        line: paddr - place,
        mask: mask_of(place, width),
        bytes: line_bytes_with(place as usize, usize::from(width), new),
    }
}

/// A mask of so many bytes of a line, from this place on.
fn mask_of(place: u64, width: u8) -> u64
    requires width { (width ≡ 4) ⊎ (width ≡ 8) }
    requires within { place + width ≤ 64 }
    ensures { result ≡ width_mask place width }
{
    if width == 8 {
        0xff << place
    } else {
        0x0f << place
    }
}

fn line_bytes_with(place: usize, width: usize, value: u64) -> [u8; 64]
    requires narrow { width ≤ 8 }
    requires within { place + width ≤ 64 }
    ensures { result ≡ line_with place width value }
{
    let mut bytes = [0; 64];
    let low = value.to_le_bytes();
    put(&mut bytes, place, &low[..width]);
    bytes
}

fn put(bytes: &mut [u8], place: usize, piece: &[u8])
    requires { place + length piece.now ≤ length bytes.old }
    ensures { bytes.new ≡ take place bytes.old ++ piece.now ++ drop (place + length piece.now) bytes.old }
{
    let end = place + piece.len();
    bytes[place..end].copy_from_slice(piece);
}
