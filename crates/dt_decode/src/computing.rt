//! The instructions that compute: opcodes OP-IMM, OP-IMM-32, OP and OP-32 (The RISC-V Instruction
//! Set Manual, Volume I, sections 2.4 and 5.2 and chapter 7).
ghost use Rattle.std.specs.Prelude.{◌≡◌, false, option_map, true};
ghost use Rattle.dt_decode.specs.Fields.{opcode_of};
ghost use Rattle.dt_decode.specs.Forms.{WithRegister};
ghost use Rattle.dt_decode.specs.Rows.{first_form, instr_in};
ghost use Rattle.dt_decode.specs.Table.{immediate_rows, register_rows, shift_rows, word_immediate_rows, word_register_rows};

use crate::fields::{field, funct3, funct7, immediate_i, rd, rs1, rs2};
use crate::instructions::Instr;
use dt_alu::AluOp;

/// An operation on a register and an immediate.
pub fn with_immediate(bits: u32) -> Option<Instr>
    requires { opcode_of bits ≡ 0b0010011 }
    ensures { result ≡ instr_in immediate_rows bits }
{
    let op = match funct3(bits) {
        0b000 => AluOp::Add,
        0b010 => AluOp::Slt,
        0b011 => AluOp::Sltu,
        0b100 => AluOp::Xor,
        0b110 => AluOp::Or,
        0b111 => AluOp::And,
        _ => return shift(bits),
    };
    Some(Instr::AluImm {
        op,
        word: false,
        rd: rd(bits),
        rs1: rs1(bits),
        imm: immediate_i(bits),
    })
}

/// A shift of 64 bits by an amount of 6 bits.
fn shift(bits: u32) -> Option<Instr>
    requires { opcode_of bits ≡ 0b0010011 }
    ensures { result ≡ instr_in shift_rows bits }
{
    let op = match (funct3(bits), field(bits, 26, 6)) {
        (0b001, 0b000000) => AluOp::Sll,
        (0b101, 0b000000) => AluOp::Srl,
        (0b101, 0b010000) => AluOp::Sra,
        _ => return None,
    };
    let imm = u64::from(field(bits, 20, 6));
    Some(Instr::AluImm {
        op,
        word: false,
        rd: rd(bits),
        rs1: rs1(bits),
        imm,
    })
}

/// An operation on the low 32 bits of a register and an immediate; shifts have an amount of 5 bits.
pub fn word_with_immediate(bits: u32) -> Option<Instr>
    requires { opcode_of bits ≡ 0b0011011 }
    ensures { result ≡ instr_in word_immediate_rows bits }
{
    let (rd, rs1) = (rd(bits), rs1(bits));
    let op = match (funct3(bits), funct7(bits)) {
        (0b000, _) => {
            let imm = immediate_i(bits);
            return Some(Instr::AluImm {
                op: AluOp::Add,
                word: true,
                rd,
                rs1,
                imm,
            });
        }
        (0b001, 0b0000000) => AluOp::Sll,
        (0b101, 0b0000000) => AluOp::Srl,
        (0b101, 0b0100000) => AluOp::Sra,
        _ => return None,
    };
    let imm = u64::from(rs2(bits));
    Some(Instr::AluImm {
        op,
        word: true,
        rd,
        rs1,
        imm,
    })
}

/// An operation on two registers.
pub fn with_register(bits: u32) -> Option<Instr>
    requires { opcode_of bits ≡ 0b0110011 }
    ensures { result ≡ instr_in register_rows bits }
{
    let op = operation(bits)?;
    Some(Instr::Alu {
        op,
        word: false,
        rd: rd(bits),
        rs1: rs1(bits),
        rs2: rs2(bits),
    })
}

fn operation(bits: u32) -> Option<AluOp>
    requires { opcode_of bits ≡ 0b0110011 }
    ensures { option_map (λ op. WithRegister op false) result ≡ first_form register_rows bits }
{
    match (funct7(bits), funct3(bits)) {
        (0b0000000, 0b000) => Some(AluOp::Add),
        (0b0000000, 0b001) => Some(AluOp::Sll),
        (0b0000000, 0b010) => Some(AluOp::Slt),
        (0b0000000, 0b011) => Some(AluOp::Sltu),
        (0b0000000, 0b100) => Some(AluOp::Xor),
        (0b0000000, 0b101) => Some(AluOp::Srl),
        (0b0000000, 0b110) => Some(AluOp::Or),
        (0b0000000, 0b111) => Some(AluOp::And),
        (0b0100000, 0b000) => Some(AluOp::Sub),
        (0b0100000, 0b101) => Some(AluOp::Sra),
        (0b0000001, 0b000) => Some(AluOp::Mul),
        (0b0000001, 0b001) => Some(AluOp::Mulh),
        (0b0000001, 0b010) => Some(AluOp::Mulhsu),
        (0b0000001, 0b011) => Some(AluOp::Mulhu),
        (0b0000001, 0b100) => Some(AluOp::Div),
        (0b0000001, 0b101) => Some(AluOp::Divu),
        (0b0000001, 0b110) => Some(AluOp::Rem),
        (0b0000001, 0b111) => Some(AluOp::Remu),
        _ => None,
    }
}

/// An operation on the low 32 bits of two registers.
pub fn word_with_register(bits: u32) -> Option<Instr>
    requires { opcode_of bits ≡ 0b0111011 }
    ensures { result ≡ instr_in word_register_rows bits }
{
    let op = word_operation(bits)?;
    Some(Instr::Alu {
        op,
        word: true,
        rd: rd(bits),
        rs1: rs1(bits),
        rs2: rs2(bits),
    })
}

fn word_operation(bits: u32) -> Option<AluOp>
    requires { opcode_of bits ≡ 0b0111011 }
    ensures { option_map (λ op. WithRegister op true) result ≡ first_form word_register_rows bits }
{
    match (funct7(bits), funct3(bits)) {
        (0b0000000, 0b000) => Some(AluOp::Add),
        (0b0000000, 0b001) => Some(AluOp::Sll),
        (0b0000000, 0b101) => Some(AluOp::Srl),
        (0b0100000, 0b000) => Some(AluOp::Sub),
        (0b0100000, 0b101) => Some(AluOp::Sra),
        (0b0000001, 0b000) => Some(AluOp::Mul),
        (0b0000001, 0b100) => Some(AluOp::Div),
        (0b0000001, 0b101) => Some(AluOp::Divu),
        (0b0000001, 0b110) => Some(AluOp::Rem),
        (0b0000001, 0b111) => Some(AluOp::Remu),
        _ => None,
    }
}
