ghost use Rattle.std.specs.Prelude.{◌≡◌, ℕ, IsTrue};
ghost use Rattle.dt_record.specs.Lawful.{IsLawful, is_instruction};
ghost use Rattle.dt_reference.specs.HartActions.{action_of, width_of};
ghost use Rattle.dt_reference.specs.Meaning.{meaning_of};
ghost use Rattle.dt_stores.specs.Places.{is_store_width};
ghost use Rattle.dt_hart.specs.Taking.{is_placed, is_placed_at};

use dt_decode::Instr;
use dt_record::{Body, Record, is_in_ram};
use dt_reference::meaning;

/// Whether the record, where it is a load from RAM, a store to RAM or an atomic, has a width that
/// there is and an address that is aligned to it. Each atomic that is lawful does.
pub fn is_placed(event: &Record) -> bool
    requires { IsLawful event.now }
    ensures { (seq : ℕ) → result ≡ is_placed (action_of seq event.now) }
{
    match event.body {
        Body::Load { retire, paddr, .. } => is_placed_at(retire.bits, paddr),
        Body::Store { bits, paddr, .. } => is_placed_at(bits, paddr),
        _ => true,
    }
}

fn is_placed_at(bits: u32, addr: u64) -> bool
    requires { IsTrue (is_instruction bits) }
    ensures { result ≡ is_placed_at bits addr }
{
    let width = width_of(bits);
    !is_in_ram(addr) || (is_width(width) && addr % u64::from(width) == 0)
}

/// How many bytes the load or the store with these bits moves, and 0 for anything else.
pub fn width_of(bits: u32) -> u8
    requires { IsTrue (is_instruction bits) }
    ensures { result ≡ width_of (meaning_of bits) }
{
    match meaning(bits) {
        Some(Instr::Load { width, .. } | Instr::Store { width, .. }) => width,
        _ => 0,
    }
}

fn is_width(width: u8) -> bool
    ensures { result ≡ is_store_width width }
{
    width == 1 || width == 2 || width == 4 || width == 8
}
