use dt_alu::{AluOp, AmoOp, Cond};

/// What a CSR instruction does to its register (The RISC-V Instruction Set Manual, Volume I,
/// section 9.1).
#[derive(Clone, Copy, Debug, PartialEq, Eq)]
pub enum CsrOp {
    Write,
    Set,
    Clear,
}

/// A 32-bit instruction with its operands: RV64I, M, A, Zicsr, Zifencei and the privileged
/// instructions (The RISC-V Instruction Set Manual, Volume I, chapter 24, and Volume II).
///
/// `rd`, `rs1` and `rs2` are register numbers, 0 to 31. `imm` is the immediate, sign-extended to 64
/// bits, or the amount of a shift. `width` is the number of bytes accessed. `word` marks a W form.
/// `source` is rs1, or the immediate itself where `immediate` is set. `aq` and `rl` are the ordering
/// bits. `pred` and `succ` are sets of accesses, with bits I, O, R and W from the highest.
#[derive(Clone, Copy, Debug, PartialEq, Eq)]
pub enum Instr {
    Lui {
        rd: u8,
        imm: u64,
    },
    Auipc {
        rd: u8,
        imm: u64,
    },
    Jal {
        rd: u8,
        imm: u64,
    },
    Jalr {
        rd: u8,
        rs1: u8,
        imm: u64,
    },
    Branch {
        cond: Cond,
        rs1: u8,
        rs2: u8,
        imm: u64,
    },
    Load {
        width: u8,
        signed: bool,
        rd: u8,
        rs1: u8,
        imm: u64,
    },
    Store {
        width: u8,
        rs1: u8,
        rs2: u8,
        imm: u64,
    },
    AluImm {
        op: AluOp,
        word: bool,
        rd: u8,
        rs1: u8,
        imm: u64,
    },
    Alu {
        op: AluOp,
        word: bool,
        rd: u8,
        rs1: u8,
        rs2: u8,
    },
    Fence {
        fm: u8,
        pred: u8,
        succ: u8,
    },
    FenceI,
    Lr {
        width: u8,
        aq: bool,
        rl: bool,
        rd: u8,
        rs1: u8,
    },
    Sc {
        width: u8,
        aq: bool,
        rl: bool,
        rd: u8,
        rs1: u8,
        rs2: u8,
    },
    Amo {
        op: AmoOp,
        width: u8,
        aq: bool,
        rl: bool,
        rd: u8,
        rs1: u8,
        rs2: u8,
    },
    Csr {
        op: CsrOp,
        number: u16,
        rd: u8,
        source: u8,
        immediate: bool,
    },
    Ecall,
    Ebreak,
    Sret,
    Mret,
    Wfi,
    SfenceVma {
        rs1: u8,
        rs2: u8,
    },
}
