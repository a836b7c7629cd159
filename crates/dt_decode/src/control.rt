//! The instructions that change where execution goes on, or the state of control: opcodes JALR,
//! BRANCH and SYSTEM (The RISC-V Instruction Set Manual, Volume I, sections 2.5, 2.8 and 9.1, and
//! Volume II, "RISC-V Privileged Instruction Set Listings").
ghost use Rattle.std.specs.Prelude.{◌≡◌};
ghost use Rattle.dt_decode.specs.Fields.{funct3_of, opcode_of};
ghost use Rattle.dt_decode.specs.Rows.{instr_in};
ghost use Rattle.dt_decode.specs.Table.{branch_rows, jump_register_rows, privileged_rows, system_rows};

use crate::fields::{field, funct3, funct7, immediate_b, immediate_i, rd, rs1, rs2};
use crate::instructions::{CsrOp, Instr};
use dt_alu::Cond;

/// A jump to a register's value plus an immediate.
pub fn jump_register(bits: u32) -> Option<Instr>
    requires { opcode_of bits ≡ 0b1100111 }
    ensures { result ≡ instr_in jump_register_rows bits }
{
    match funct3(bits) {
        0b000 => Some(Instr::Jalr {
            rd: rd(bits),
            rs1: rs1(bits),
            imm: immediate_i(bits),
        }),
        _ => None,
    }
}

/// A conditional branch.
pub fn branch(bits: u32) -> Option<Instr>
    requires { opcode_of bits ≡ 0b1100011 }
    ensures { result ≡ instr_in branch_rows bits }
{
    let cond = match funct3(bits) {
        0b000 => Cond::Eq,
        0b001 => Cond::Ne,
        0b100 => Cond::Lt,
        0b101 => Cond::Ge,
        0b110 => Cond::Ltu,
        0b111 => Cond::Geu,
        _ => return None,
    };
    Some(Instr::Branch {
        cond,
        rs1: rs1(bits),
        rs2: rs2(bits),
        imm: immediate_b(bits),
    })
}

/// An access to a control and status register, or a privileged instruction.
pub fn system(bits: u32) -> Option<Instr>
    requires { opcode_of bits ≡ 0b1110011 }
    ensures { result ≡ instr_in system_rows bits }
{
    let (op, immediate) = match funct3(bits) {
        0b000 => return privileged(bits),
        0b001 => (CsrOp::Write, false),
        0b010 => (CsrOp::Set, false),
        0b011 => (CsrOp::Clear, false),
        0b101 => (CsrOp::Write, true),
        0b110 => (CsrOp::Set, true),
        0b111 => (CsrOp::Clear, true),
        _ => return None,
    };
    let number = field(bits, 20, 12) as u16;
    Some(Instr::Csr {
        op,
        number,
        rd: rd(bits),
        source: rs1(bits),
        immediate,
    })
}

fn privileged(bits: u32) -> Option<Instr>
    requires op { opcode_of bits ≡ 0b1110011 }
    requires kind { funct3_of bits ≡ 0b000 }
    ensures { result ≡ instr_in privileged_rows bits }
{
    if rd(bits) != 0 {
        return None;
    }
    match (funct7(bits), rs2(bits), rs1(bits)) {
        (0b0000000, 0b00000, 0) => Some(Instr::Ecall),
        (0b0000000, 0b00001, 0) => Some(Instr::Ebreak),
        (0b0001000, 0b00010, 0) => Some(Instr::Sret),
        (0b0011000, 0b00010, 0) => Some(Instr::Mret),
        (0b0001000, 0b00101, 0) => Some(Instr::Wfi),
        (0b0001001, rs2, rs1) => Some(Instr::SfenceVma { rs1, rs2 }),
        _ => None,
    }
}
