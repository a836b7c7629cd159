//! A record whose long fields are lent: small, and copied without its bytes.
ghost use Rattle.std.specs.Prelude.{◌≡◌, ◌<◌, ◌+◌, ◌*◌, ◌≤◌, IsTrue, length, slice_index};
ghost use Rattle.dt_record.specs.LentBodies.{body_of, double_in, is_whole, words_in, words_of};

use crate::records::{Body, Record, Retire};

/// Numbers of 64 bits, as they stand: in bytes, the low byte of each first, or as numbers.
#[derive(Clone, Copy, Debug)]
pub enum WordsAt<'a> {
    Bytes(&'a [u8]),
    Numbers(&'a [u64]),
}

/// What happened, as in `Body`, with the long fields lent.
#[derive(Clone, Copy, Debug)]
pub enum BodyAt<'a> {
    Commit {
        retire: Retire,
    },
    Trap {
        pc: u64,
        bits: u32,
        cause: u64,
        tval: u64,
    },
    Regs {
        pc: u64,
        x: WordsAt<'a>,
    },
    Csrs {
        mode: u8,
        v: WordsAt<'a>,
    },
    Load {
        retire: Retire,
        at: u64,
        paddr: u64,
    },
    Store {
        pc: u64,
        bits: u32,
        paddr: u64,
        value: u64,
    },
    Atomic {
        retire: Retire,
        paddr: u64,
        width: u8,
        wrote: bool,
        new: u64,
    },
    Drain {
        line: u64,
        mask: u64,
        count: u16,
        bytes: &'a [u8],
    },
    Refill {
        line: u64,
        bytes: &'a [u8],
    },
    Beat,
}

/// A record where it stands: a contract sees it as the record that `record_of` says. Its long fields
/// have their lengths.
#[derive(Clone, Copy, Debug)]
pub struct RecordAt<'a> {
    pub stamp: u64,
    pub hart: u8,
    pub body: BodyAt<'a>,
    pub ghost whole: { IsTrue (is_whole body) },
}

/// The number in the eight bytes from a place on.
fn double_at(bytes: &[u8], place: usize) -> u64
    requires { place + 8 ≤ length bytes.now }
    ensures { result ≡ double_in bytes.now place }
{
    let mut field = [0; 8];
    field.copy_from_slice(&bytes[place..place + 8]);
    u64::from_le_bytes(field)
}

/// The number with this place among the numbers in bytes.
fn word_in(bytes: &[u8], place: usize) -> u64
    requires { place < length (words_in bytes.now) }
    ensures { result ≡ slice_index (words_in bytes.now) place }
{
    let count = bytes.len() / 8;
    prove!(place < count);
    double_at(bytes, 8 * place)
}

/// The number with this place.
fn number_in(numbers: &[u64], place: usize) -> u64
    requires { place < length numbers.now }
    ensures { result ≡ slice_index numbers.now place }
{
    numbers[place]
}

impl WordsAt<'_> {
    /// The number at a place.
    pub fn word(&self, place: usize) -> u64
        requires { place < length (words_of self.now) }
        ensures { result ≡ slice_index (words_of self.now) place }
    {
        match self {
            WordsAt::Bytes(bytes) => word_in(bytes, place),
            WordsAt::Numbers(numbers) => number_in(numbers, place),
        }
    }
}

impl Body {
    /// The same body, with its long fields lent.
    pub fn lent(&self) -> BodyAt<'_>
        ensures same { body_of result ≡ self.now }
        ensures whole { IsTrue (is_whole result) }
    {
        match self {
            Body::Commit { retire } => BodyAt::Commit { retire: *retire },
            Body::Trap {
                pc,
                bits,
                cause,
                tval,
            } => BodyAt::Trap {
                pc: *pc,
                bits: *bits,
                cause: *cause,
                tval: *tval,
            },
            Body::Regs { pc, x } => BodyAt::Regs {
                pc: *pc,
                x: WordsAt::Numbers(x),
            },
            Body::Csrs { mode, v } => BodyAt::Csrs {
                mode: *mode,
                v: WordsAt::Numbers(v),
            },
            Body::Load { retire, at, paddr } => BodyAt::Load {
                retire: *retire,
                at: *at,
                paddr: *paddr,
            },
            Body::Store {
                pc,
                bits,
                paddr,
                value,
            } => BodyAt::Store {
                pc: *pc,
                bits: *bits,
                paddr: *paddr,
                value: *value,
            },
            Body::Atomic {
                retire,
                paddr,
                width,
                wrote,
                new,
            } => BodyAt::Atomic {
                retire: *retire,
                paddr: *paddr,
                width: *width,
                wrote: *wrote,
                new: *new,
            },
            Body::Drain {
                line,
                mask,
                count,
                bytes,
            } => BodyAt::Drain {
                line: *line,
                mask: *mask,
                count: *count,
                bytes,
            },
            Body::Refill { line, bytes } => BodyAt::Refill { line: *line, bytes },
            Body::Beat => BodyAt::Beat,
        }
    }
}

impl Record {
    ghost use Rattle.dt_record.specs.Lent.{record_of};

    /// The same record, with its long fields lent.
    pub fn lent(&self) -> RecordAt<'_>
        ensures { record_of result ≡ self.now }
    {
        RecordAt {
            stamp: self.stamp,
            hart: self.hart,
            body: self.body.lent(),
        }
    }
}

/// The numbers, one after another.
fn put_words(words: &WordsAt<'_>, numbers: &mut [u64])
    requires { length numbers.old ≡ length (words_of words.now) }
    ensures { numbers.new ≡ words_of words.now }
{
    for place in 0..numbers.len() {
        numbers[place] = words.word(place);
    }
}

/// The bytes of a whole line.
pub(crate) fn line_of(bytes: &[u8]) -> [u8; 64]
    requires { length bytes.now ≡ 64 }
    ensures { result ≡ bytes.now }
{
    let mut line = [0; 64];
    line.copy_from_slice(bytes);
    line
}

/// The body that one with lent fields stands for.
fn whole_body(body: &BodyAt<'_>) -> Body
    requires { IsTrue (is_whole body.now) }
    ensures { result ≡ body_of body.now }
{
    match *body {
        BodyAt::Commit { retire } => Body::Commit { retire },
        BodyAt::Trap {
            pc,
            bits,
            cause,
            tval,
        } => Body::Trap {
            pc,
            bits,
            cause,
            tval,
        },
        BodyAt::Regs { pc, x } => {
            let mut numbers = [0; 31];
            put_words(&x, &mut numbers);
            Body::Regs { pc, x: numbers }
        }
        BodyAt::Csrs { mode, v } => {
            let mut numbers = [0; 17];
            put_words(&v, &mut numbers);
            Body::Csrs { mode, v: numbers }
        }
        BodyAt::Load { retire, at, paddr } => Body::Load { retire, at, paddr },
        BodyAt::Store {
            pc,
            bits,
            paddr,
            value,
        } => Body::Store {
            pc,
            bits,
            paddr,
            value,
        },
        BodyAt::Atomic {
            retire,
            paddr,
            width,
            wrote,
            new,
        } => Body::Atomic {
            retire,
            paddr,
            width,
            wrote,
            new,
        },
        BodyAt::Drain {
            line,
            mask,
            count,
            bytes,
        } => Body::Drain {
            line,
            mask,
            count,
            bytes: line_of(bytes),
        },
        BodyAt::Refill { line, bytes } => Body::Refill {
            line,
            bytes: line_of(bytes),
        },
        BodyAt::Beat => Body::Beat,
    }
}

impl RecordAt<'_> {
    ghost use Rattle.dt_record.specs.Lent.{record_of};

    /// The record that it stands for.
    pub fn record(&self) -> Record
        ensures { result ≡ record_of self.now }
    {
        Record {
            stamp: self.stamp,
            hart: self.hart,
            body: whole_body(&self.body),
        }
    }
}
