//! The 32-bit words of the instructions that 16-bit ones stand for, by format (The RISC-V Instruction
//! Set Manual, Volume I, sections 2.2 and 2.3). Registers are below 32, immediates are taken modulo
//! the bits that the format keeps.
ghost use Rattle.std.specs.Prelude.{◌≡◌, ◌^◌, ◌<◌};
ghost use Rattle.dt_rvc.specs.Fields.{field};
ghost use Rattle.dt_rvc.specs.Words.{format_b, format_i, format_j, format_r, format_s, format_u};

use crate::fields::field;

pub const LOAD: u32 = 0b0000011;

pub const OP_IMM: u32 = 0b0010011;

pub const OP_IMM_32: u32 = 0b0011011;

pub const STORE: u32 = 0b0100011;

pub const OP: u32 = 0b0110011;

pub const LUI: u32 = 0b0110111;

pub const OP_32: u32 = 0b0111011;

pub const BRANCH: u32 = 0b1100011;

pub const JALR: u32 = 0b1100111;

pub const JAL: u32 = 0b1101111;

pub const EBREAK: u32 = 0x0010_0073;

/// The number in the `width` bits of an immediate from bit `low` on.
fn part(imm: u64, low: u32, width: u32) -> u32
    requires start { low < 64 }
    requires size { width < 32 }
    ensures value { result ≡ field low width imm }
    ensures small { result < 2 ^ width }
{
    field(imm, low, width) as u32
}

pub fn format_r(opcode: u32, funct3: u32, funct7: u32, rd: u32, rs1: u32, rs2: u32) -> u32
    requires opcode { opcode < 128 }
    requires funct3 { funct3 < 8 }
    requires funct7 { funct7 < 128 }
    requires rd { rd < 32 }
    requires rs1 { rs1 < 32 }
    requires rs2 { rs2 < 32 }
    ensures { result ≡ format_r opcode funct3 funct7 rd rs1 rs2 }
{
    opcode + (rd << 7) + (funct3 << 12) + (rs1 << 15) + (rs2 << 20) + (funct7 << 25)
}

pub fn format_i(opcode: u32, funct3: u32, rd: u32, rs1: u32, imm: u64) -> u32
    requires opcode { opcode < 128 }
    requires funct3 { funct3 < 8 }
    requires rd { rd < 32 }
    requires rs1 { rs1 < 32 }
    ensures { result ≡ format_i opcode funct3 rd rs1 imm }
{
    opcode + (rd << 7) + (funct3 << 12) + (rs1 << 15) + (part(imm, 0, 12) << 20)
}

pub fn format_s(opcode: u32, funct3: u32, rs1: u32, rs2: u32, imm: u64) -> u32
    requires opcode { opcode < 128 }
    requires funct3 { funct3 < 8 }
    requires rs1 { rs1 < 32 }
    requires rs2 { rs2 < 32 }
    ensures { result ≡ format_s opcode funct3 rs1 rs2 imm }
{
    opcode
        + (part(imm, 0, 5) << 7)
        + (funct3 << 12)
        + (rs1 << 15)
        + (rs2 << 20)
        + (part(imm, 5, 7) << 25)
}

pub fn format_b(opcode: u32, funct3: u32, rs1: u32, rs2: u32, imm: u64) -> u32
    requires opcode { opcode < 128 }
    requires funct3 { funct3 < 8 }
    requires rs1 { rs1 < 32 }
    requires rs2 { rs2 < 32 }
    ensures { result ≡ format_b opcode funct3 rs1 rs2 imm }
{
    opcode
        + (part(imm, 11, 1) << 7)
        + (part(imm, 1, 4) << 8)
        + (funct3 << 12)
        + (rs1 << 15)
        + (rs2 << 20)
        + (part(imm, 5, 6) << 25)
        + (part(imm, 12, 1) << 31)
}

pub fn format_u(opcode: u32, rd: u32, imm: u64) -> u32
    requires opcode { opcode < 128 }
    requires rd { rd < 32 }
    ensures { result ≡ format_u opcode rd imm }
{
    opcode + (rd << 7) + (part(imm, 12, 20) << 12)
}

pub fn format_j(opcode: u32, rd: u32, imm: u64) -> u32
    requires opcode { opcode < 128 }
    requires rd { rd < 32 }
    ensures { result ≡ format_j opcode rd imm }
{
    opcode
        + (rd << 7)
        + (part(imm, 12, 8) << 12)
        + (part(imm, 11, 1) << 20)
        + (part(imm, 1, 10) << 21)
        + (part(imm, 20, 1) << 31)
}
