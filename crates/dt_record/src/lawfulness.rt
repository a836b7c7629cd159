ghost use Rattle.std.specs.Prelude.{◌≡◌};
ghost use Rattle.dt_record.specs.Lent.{record_of};
ghost use Rattle.dt_record.specs.LentBodies.{body_of};
ghost use Rattle.dt_record.specs.Lawful.{is_lawful, is_masked, is_byte_masked, is_instruction, are_trap_bits, is_trap_cause, is_atomic_place, is_atomic_value, is_mode, Bound, body_bounds};
ghost use Rattle.std.specs.List.{list_all};

use crate::lent::{BodyAt, RecordAt};
use crate::limits::HART_LIMIT;
use crate::places::{is_in_ram, is_ram_line};
use crate::records::Record;

/// Whether the record keeps the bounds of its fields.
pub fn lawful(event: &Record) -> bool
    ensures { result ≡ is_lawful event.now }
{
    lawful_at(&event.lent())
}

/// The same of a record whose long fields are lent.
pub fn lawful_at(event: &RecordAt<'_>) -> bool
    ensures { result ≡ is_lawful (record_of event.now) }
{
    event.hart < HART_LIMIT && is_body_lawful(event.stamp, &event.body)
}

fn is_body_lawful(stamp: u64, body: &BodyAt<'_>) -> bool
    ensures { result ≡ list_all (λ (b : Bound). b.holds) (body_bounds stamp (body_of body.now)) }
{
    match body {
        BodyAt::Commit { retire } => is_one_instruction(retire.bits),
        BodyAt::Trap { bits, cause, .. } => fits_fault(*bits, *cause)
            && fits_interrupt(*bits, *cause),
        BodyAt::Regs { .. } => true,
        BodyAt::Csrs { mode, .. } => is_known_mode(*mode),
        BodyAt::Load { retire, at, .. } => is_one_instruction(retire.bits) && *at <= stamp,
        BodyAt::Store { bits, .. } => is_one_instruction(*bits),
        BodyAt::Atomic {
            retire,
            paddr,
            width,
            wrote,
            new,
        } => {
            is_one_instruction(retire.bits)
                && fits_place(*paddr, *width)
                && fits_value(*width, *wrote, *new)
        }
        BodyAt::Drain {
            line,
            mask,
            count,
            bytes,
        } => is_ram_line(*line) && *mask != 0 && *count != 0 && is_clear_outside(*mask, bytes),
        BodyAt::Refill { line, .. } => is_ram_line(*line),
        BodyAt::Beat => true,
    }
}

fn is_one_instruction(bits: u32) -> bool
    ensures { result ≡ is_instruction bits }
{
    bits % 4 == 3 || bits < 65536
}

fn fits_fault(bits: u32, cause: u64) -> bool
    ensures { result ≡ are_trap_bits bits cause }
{
    cause == 1 || cause == 12 || is_one_instruction(bits)
}

fn fits_interrupt(bits: u32, cause: u64) -> bool
    ensures { result ≡ is_trap_cause bits cause }
{
    cause < 1 << 63 || bits == 0
}

fn is_known_mode(mode: u8) -> bool
    ensures { result ≡ is_mode mode }
{
    mode == 0 || mode == 1 || mode == 3
}

fn fits_place(paddr: u64, width: u8) -> bool
    ensures { result ≡ is_atomic_place paddr width }
{
    (width == 4 || width == 8) && paddr % u64::from(width) == 0 && is_in_ram(paddr)
}

fn fits_value(width: u8, wrote: bool, new: u64) -> bool
    ensures { result ≡ is_atomic_value width wrote new }
{
    (wrote || new == 0) && (width == 8 || new < 1 << 32)
}

fn fits_mask(mask: u64, byte: u8) -> bool
    ensures { result ≡ is_byte_masked mask byte }
{
    mask % 2 == 1 || byte == 0
}

fn is_clear_outside(mask: u64, bytes: &[u8]) -> bool
    ensures { result ≡ is_masked mask bytes.now }
{
    let mut rest = mask;
    for b in bytes {
        if !fits_mask(rest, *b) {
            return false;
        }
        rest /= 2;
    }
    true
}
