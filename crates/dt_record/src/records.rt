ghost use Rattle.std.specs.Prelude.{◌≡◌};
ghost use Rattle.dt_record.specs.LentBodies.{body_of};
ghost use Rattle.dt_record.specs.Tags.{tag_number};

use crate::lent::BodyAt;

/// One event of one hart, as the design under test reports it. This project's own format.
#[derive(Clone, Copy, Debug, PartialEq, Eq)]
pub struct Record {
    /// The cycle in which the event happened.
    pub stamp: u64,
    pub hart: u8,
    pub body: Body,
}

/// What retired instructions have in common.
#[derive(Clone, Copy, Debug, PartialEq, Eq)]
pub struct Retire {
    pub pc: u64,
    /// The instruction as fetched; above a 16-bit one stand zeros.
    pub bits: u32,
    /// What the instruction gave: each kind of record says what that is.
    pub value: u64,
}

/// What happened. A retired instruction is one record: a load, a store or an atomic (LR, SC or AMO)
/// has the kind of that name, and any other instruction is a `Commit`.
#[derive(Clone, Copy, Debug, PartialEq, Eq)]
pub enum Body {
    /// `value` is what was written to rd, and 0 where no register was written or rd is x0.
    Commit {
        retire: Retire,
    },
    /// `bits` is the instruction that trapped, and 0 for an interrupt. Where its fetch failed (causes
    /// 1 and 12) it is what was fetched before the fault: 0, or the first halfword.
    Trap {
        pc: u64,
        bits: u32,
        cause: u64,
        tval: u64,
    },
    /// The registers x1 to x31, between two instructions.
    Regs {
        pc: u64,
        x: [u64; 31],
    },
    /// The mode (0, 1 or 3) and, in order, mstatus, medeleg, mideleg, mie, mtvec, mcounteren,
    /// mscratch, mepc, mcause, mtval, stvec, scounteren, sscratch, sepc, scause, stval and satp.
    Csrs {
        mode: u8,
        v: [u64; 17],
    },
    /// `value` is what was loaded, extended to 64 bits, also where rd is x0. `at` is the cycle in
    /// which the load read its bytes.
    Load {
        retire: Retire,
        at: u64,
        paddr: u64,
    },
    /// `value` has the low bytes that were stored, the rest zero.
    Store {
        pc: u64,
        bits: u32,
        paddr: u64,
        value: u64,
    },
    /// `value` is what an LR or AMO read, sign-extended, or what an SC gave, also where rd is x0.
    /// `new` is what was written to memory, and 0 with `wrote` false.
    Atomic {
        retire: Retire,
        paddr: u64,
        width: u8,
        wrote: bool,
        new: u64,
    },
    /// Stores leave the store buffer and are written to a 64-byte line. Bit i of `mask` says
    /// whether byte i is written. `count` is the number of stores that this drain takes.
    Drain {
        line: u64,
        mask: u64,
        count: u16,
        bytes: [u8; 64],
    },
    /// A whole 64-byte line came into the hart's cache.
    Refill {
        line: u64,
        bytes: [u8; 64],
    },
    /// The hart has reached this cycle.
    Beat,
}

/// The tag of a record's kind, from 1 to 10, as probe files spell it.
pub fn tag_of(body: &Body) -> u8
    ensures { result ≡ tag_number body.now }
{
    tag_at(&body.lent())
}

/// The same of a body whose long fields are lent.
pub fn tag_at(body: &BodyAt<'_>) -> u8
    ensures { result ≡ tag_number (body_of body.now) }
{
    match body {
        BodyAt::Commit { .. } => 1,
        BodyAt::Trap { .. } => 2,
        BodyAt::Regs { .. } => 3,
        BodyAt::Csrs { .. } => 4,
        BodyAt::Load { .. } => 5,
        BodyAt::Store { .. } => 6,
        BodyAt::Atomic { .. } => 7,
        BodyAt::Drain { .. } => 8,
        BodyAt::Refill { .. } => 9,
        BodyAt::Beat => 10,
    }
}
