ghost use Rattle.std.specs.Prelude.{◌≡◌};

/// An integer operation on two 64-bit values (The RISC-V Instruction Set Manual, Volume I,
/// chapters 2, 5 and 7).
#[derive(Clone, Copy, Debug, PartialEq, Eq)]
pub enum AluOp {
    Add,
    Sub,
    Sll,
    Slt,
    Sltu,
    Xor,
    Srl,
    Sra,
    Or,
    And,
    Mul,
    Mulh,
    Mulhsu,
    Mulhu,
    Div,
    Divu,
    Rem,
    Remu,
}

impl AluOp {
    ghost use Rattle.dt_alu.specs.Alu.{has_word_form};

    /// Whether RV64 also has the operation for 32-bit words, as ADDW beside ADD.
    pub fn has_word_form(self) -> bool
        ensures { result ≡ has_word_form self }
    {
        matches!(
            self,
            AluOp::Add
                | AluOp::Sub
                | AluOp::Sll
                | AluOp::Srl
                | AluOp::Sra
                | AluOp::Mul
                | AluOp::Div
                | AluOp::Divu
                | AluOp::Rem
                | AluOp::Remu
        )
    }
}

/// The condition of a branch (Volume I, section 2.5).
#[derive(Clone, Copy, Debug, PartialEq, Eq)]
pub enum Cond {
    Eq,
    Ne,
    Lt,
    Ge,
    Ltu,
    Geu,
}

/// The operation of an atomic memory operation (Volume I, section 8.4).
#[derive(Clone, Copy, Debug, PartialEq, Eq)]
pub enum AmoOp {
    Swap,
    Add,
    Xor,
    And,
    Or,
    Min,
    Max,
    Minu,
    Maxu,
}
