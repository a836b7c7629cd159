ghost use Rattle.std.specs.Prelude.{◌≡◌, if◌then◌else◌};
ghost use Rattle.dt_record.specs.Lawful.{is_masked, is_byte_masked, is_instruction, are_trap_bits, is_trap_cause, is_atomic_place, is_atomic_value, is_mode};
ghost use Rattle.dt_record_bytes.specs.WideAnswer.{bounds_with, body_bounds_with, first_broken};

use dt_record::{Body, HART_LIMIT, Record, is_in_ram, is_ram_line};

/// The place of the first field that breaks its bound. `wrote_byte` is the byte for whether an
/// atomic wrote, as it was read.
pub(crate) fn broken_place(event: &Record, wrote_byte: u8) -> Option<usize>
    ensures { result ≡ first_broken (bounds_with wrote_byte event.now) }
{
    let in_body = broken_in_body(event.stamp, &event.body, wrote_byte);
    unless(event.hart < HART_LIMIT, 1, in_body)
}

/// A place, unless the bound on it holds, and then the place of a later field.
fn unless(holds: bool, place: usize, later: Option<usize>) -> Option<usize>
    ensures { result ≡ (if holds then later else Some place) }
{
    if holds { later } else { Some(place) }
}

fn broken_in_body(stamp: u64, body: &Body, wrote_byte: u8) -> Option<usize>
    ensures { result ≡ first_broken (body_bounds_with wrote_byte stamp body.now) }
{
    match body {
        Body::Commit { retire } => unless(is_one_instruction(retire.bits), 18, None),
        Body::Trap { bits, cause, .. } => {
            let cause_place = unless(fits_interrupt(*bits, *cause), 22, None);
            unless(fits_fault(*bits, *cause), 18, cause_place)
        }
        Body::Regs { .. } => None,
        Body::Csrs { mode, .. } => unless(is_known_mode(*mode), 10, None),
        Body::Load { retire, at, .. } => {
            let at_place = unless(*at <= stamp, 30, None);
            unless(is_one_instruction(retire.bits), 18, at_place)
        }
        Body::Store { bits, .. } => unless(is_one_instruction(*bits), 18, None),
        Body::Atomic {
            retire,
            paddr,
            width,
            wrote,
            new,
        } => {
            let new_place = unless(fits_value(*width, *wrote, *new), 40, None);
            let wrote_place = unless(wrote_byte <= 1, 39, new_place);
            let width_place = unless(fits_place(*paddr, *width), 38, wrote_place);
            unless(is_one_instruction(retire.bits), 18, width_place)
        }
        Body::Drain {
            line,
            mask,
            count,
            bytes,
        } => {
            let bytes_place = unless(is_clear_outside(*mask, bytes), 28, None);
            let count_place = unless(*count != 0, 26, bytes_place);
            let mask_place = unless(*mask != 0, 18, count_place);
            unless(is_ram_line(*line), 10, mask_place)
        }
        Body::Refill { line, .. } => unless(is_ram_line(*line), 10, None),
        Body::Beat => None,
    }
}

fn is_one_instruction(bits: u32) -> bool
    ensures { result ≡ is_instruction bits }
{
    bits % 4 == 3 || bits < 65536
}

fn fits_fault(bits: u32, cause: u64) -> bool
    ensures { result ≡ are_trap_bits bits cause }
{
    cause == 1 || cause == 12 || is_one_instruction(bits)
}

fn fits_interrupt(bits: u32, cause: u64) -> bool
    ensures { result ≡ is_trap_cause bits cause }
{
    cause < 1 << 63 || bits == 0
}

fn is_known_mode(mode: u8) -> bool
    ensures { result ≡ is_mode mode }
{
    mode == 0 || mode == 1 || mode == 3
}

fn fits_place(paddr: u64, width: u8) -> bool
    ensures { result ≡ is_atomic_place paddr width }
{
    (width == 4 || width == 8) && paddr % u64::from(width) == 0 && is_in_ram(paddr)
}

fn fits_value(width: u8, wrote: bool, new: u64) -> bool
    ensures { result ≡ is_atomic_value width wrote new }
{
    (wrote || new == 0) && (width == 8 || new < 1 << 32)
}

fn fits_mask(mask: u64, byte: u8) -> bool
    ensures { result ≡ is_byte_masked mask byte }
{
    mask % 2 == 1 || byte == 0
}

fn is_clear_outside(mask: u64, bytes: &[u8]) -> bool
    ensures { result ≡ is_masked mask bytes.now }
{
    let mut rest = mask;
    for b in bytes {
        if !fits_mask(rest, *b) {
            return false;
        }
        rest /= 2;
    }
    true
}
