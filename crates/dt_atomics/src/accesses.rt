ghost use Rattle.std.specs.Prelude.{◌≡◌};
ghost use Rattle.dt_record.specs.Memory.{line_of};
ghost use Rattle.dt_atomics.specs.Asking.{has_failed, is_conditional, reads, writes_now};

use dt_step::AtomicOp;

/// An atomic as its plan asks for it and as its record says that it was.
#[derive(Clone, Copy, Debug, PartialEq, Eq)]
pub struct AtomicAccess {
    pub op: AtomicOp,
    /// How many bytes the instruction accesses: 4 or 8.
    pub width: u8,
    /// Whether the instruction is a release.
    pub release: bool,
    /// The low `width` bytes of rs2 and else zero. LR has none.
    pub operand: u64,
    /// The address in RAM, a multiple of `width`.
    pub paddr: u64,
    /// What rd has: the old value of an LR or AMO, or the result of an SC.
    pub value: u64,
    /// The width by the record.
    pub said_width: u8,
    /// Whether the record says that memory was written.
    pub wrote: bool,
    /// What was written, and 0 where nothing was.
    pub new: u64,
}

pub fn reads(op: AtomicOp) -> bool
    ensures { result ≡ reads op }
{
    match op {
        AtomicOp::Lr | AtomicOp::Amo(_) => true,
        AtomicOp::Sc => false,
    }
}

pub fn is_conditional(op: AtomicOp) -> bool
    ensures { result ≡ is_conditional op }
{
    match op {
        AtomicOp::Lr | AtomicOp::Amo(_) => false,
        AtomicOp::Sc => true,
    }
}

pub fn writes_now(op: AtomicOp, wrote: bool) -> bool
    ensures { result ≡ writes_now op wrote }
{
    match op {
        AtomicOp::Lr => false,
        AtomicOp::Sc => wrote,
        AtomicOp::Amo(_) => true,
    }
}

/// Whether it is an SC that failed.
pub fn has_failed(x: AtomicAccess) -> bool
    ensures { result ≡ has_failed x }
{
    is_conditional(x.op) && !x.wrote
}

/// The 64-byte line that holds an address.
pub fn line_of(addr: u64) -> u64
    ensures { result ≡ line_of addr }
{
    addr - addr % 64
}
