ghost use Rattle.std.specs.Prelude.{◌≡◌, ℕ, Option, IsTrue};
ghost use Rattle.dt_record.specs.Lawful.{IsLawful, is_instruction};
ghost use Rattle.dt_record.specs.declared.keys.Key.{Key};
ghost use Rattle.dt_reference.specs.HartActions.{acquires, reads_memory};
ghost use Rattle.dt_reference.specs.Meaning.{meaning_of};
ghost use Rattle.dt_hart.specs.Reserving.{reserved_by};

use dt_decode::Instr;
use dt_record::{Body, Key, Record};
use dt_reference::meaning;

/// How an atomic is ordered before later loads.
#[derive(Clone, Copy, Debug, PartialEq, Eq)]
pub struct AtomicOrder {
    /// It reads memory: an LR or AMO.
    pub reads: bool,
    /// It is an acquire, and no SC that failed.
    pub acquires: bool,
}

/// That of the atomic with these bits, where its record says whether it wrote.
pub fn order_of(bits: u32, wrote: bool) -> AtomicOrder
    requires { IsTrue (is_instruction bits) }
    ensures reads { result.reads ≡ reads_memory (meaning_of bits) }
    ensures acquires { result.acquires ≡ acquires (meaning_of bits) wrote }
{
    match meaning(bits) {
        Some(Instr::Lr { aq, .. } | Instr::Amo { aq, .. }) => AtomicOrder {
            reads: true,
            acquires: aq,
        },
        Some(Instr::Sc { aq, .. }) => AtomicOrder {
            reads: false,
            acquires: aq && wrote,
        },
        _ => AtomicOrder {
            reads: false,
            acquires: false,
        },
    }
}

/// The reservation of a hart after its record with this key: its line, and the key of the LR that
/// made it.
pub fn reserved_by(key: Key, event: &Record, old: Option<(u64, Key)>) -> Option<(u64, Key)>
    requires { IsLawful event.now }
    ensures { result ≡ reserved_by key event.now.body old }
{
    match event.body {
        Body::Atomic { retire, paddr, .. } => match meaning(retire.bits) {
            Some(Instr::Lr { .. }) => Some((paddr - paddr % 64, key)),
            Some(Instr::Sc { .. }) => None,
            _ => old,
        },
        _ => old,
    }
}
