use dt_alu::AmoOp;
use dt_decode::CsrOp;

/// An atomic instruction (The RISC-V Instruction Set Manual, Volume I, chapter 8).
#[derive(Clone, Copy, Debug, PartialEq, Eq)]
pub enum AtomicOp {
    /// Load and reserve.
    Lr,
    /// Store where the reservation holds.
    Sc,
    /// Read, modify and write.
    Amo(AmoOp),
}

/// What an instruction needs before it can be finished. Addresses are virtual, widths are in bytes,
/// and `rd` is the register that is written, where 0 stands for none.
#[derive(Clone, Copy, Debug, PartialEq, Eq)]
pub enum Planned {
    /// Nothing: `value` goes to `rd`, and the next instruction is at `next`.
    Done {
        rd: u8,
        value: u64,
        next: u64,
    },
    /// The value of a load, extended as `signed` says.
    NeedsLoad {
        va: u64,
        width: u8,
        signed: bool,
        rd: u8,
    },
    /// A store of the low `width` bytes of `value`, whose other bytes are zero.
    NeedsStore {
        va: u64,
        width: u8,
        value: u64,
    },
    /// An atomic access. `operand` has the low `width` bytes of rs2 and else zero; LR has none.
    NeedsAtomic {
        va: u64,
        width: u8,
        op: AtomicOp,
        aq: bool,
        rl: bool,
        rd: u8,
        operand: u64,
    },
    /// The value of a control and status register where `reads` is set. Where `writes` is set the
    /// register is written, by `op` with `operand`.
    Csr {
        number: u16,
        op: CsrOp,
        operand: u64,
        reads: bool,
        writes: bool,
        rd: u8,
    },
    /// A return from a trap, by MRET or by SRET.
    Returns {
        from_m: bool,
    },
    /// A fence that orders writes before writes, writes before reads, and reads before reads.
    Fences {
        ww: bool,
        wr: bool,
        rr: bool,
    },
    /// A fence between stores and instruction fetches.
    FenceI,
    /// A fence of address translation: of all pages, of the page of `va`, or of none that are
    /// known.
    FencesPages {
        va: Option<u64>,
        all: bool,
    },
    /// A trap: the instruction raises this cause by itself.
    Raises {
        cause: u64,
        tval: u64,
    },
}

/// What a plan was given.
#[derive(Clone, Copy, Debug, PartialEq, Eq)]
pub enum Answer {
    Nothing,
    /// A number: what a load gives, what memory held before an atomic, what an SC gives, or what a
    /// control and status register reads as.
    Value(u64),
}
