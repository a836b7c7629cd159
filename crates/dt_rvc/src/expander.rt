//! The expander of 16-bit instructions.
ghost use Rattle.std.specs.Prelude.{◌≡◌, option_and_then};
ghost use Rattle.dt_rvc.specs.Fields.{field};
ghost use Rattle.dt_rvc.specs.Rows.{expansion_in};
ghost use Rattle.dt_rvc.specs.Table.{computing_rows, expansion, quadrant_0_rows, quadrant_1_rows, quadrant_2_rows, register_rows, upper_rows};

use crate::fields::{
    amount, branch_offset, double_offset, field, jump_offset, rd, rs2, short_register,
    small_immediate, stack_address_offset, stack_double_load_offset, stack_double_store_offset,
    stack_step, stack_word_load_offset, stack_word_store_offset, upper_immediate, word_offset,
};
use crate::words::{
    BRANCH, EBREAK, JAL, JALR, LOAD, LUI, OP, OP_32, OP_IMM, OP_IMM_32, STORE, format_b, format_i,
    format_j, format_r, format_s, format_u,
};

/// The 32-bit instruction that a 16-bit pattern stands for. None exactly where the table of forms has
/// none for it.
#[tactic(auto, unfolding(crate::specs::Table::expansion))]
pub fn expand(half: u16) -> Option<u32>
    ensures { result ≡ expansion half }
{
    let half = u64::from(half);
    match field(half, 0, 2) {
        0b00 => quadrant_0(half),
        0b01 => quadrant_1(half),
        0b10 => quadrant_2(half),
        _ => None,
    }
}

/// C.ADDI4SPN, C.LW, C.LD, C.SW and C.SD.
fn quadrant_0(half: u64) -> Option<u32>
    requires { field 0 2 half ≡ 0b00 }
    ensures { result ≡ expansion_in quadrant_0_rows half }
{
    let (register, base) = (short_register(half, 2), short_register(half, 7));
    match field(half, 13, 3) {
        0b000 if field(half, 5, 8) != 0 => {
            Some(format_i(OP_IMM, 0b000, register, 2, stack_address_offset(half)))
        }
        0b010 => Some(format_i(LOAD, 0b010, register, base, word_offset(half))),
        0b011 => Some(format_i(LOAD, 0b011, register, base, double_offset(half))),
        0b110 => Some(format_s(STORE, 0b010, base, register, word_offset(half))),
        0b111 => Some(format_s(STORE, 0b011, base, register, double_offset(half))),
        _ => None,
    }
}

/// C.ADDI, C.ADDIW, C.LI, C.ADDI16SP and C.LUI, the forms that compute, C.J, C.BEQZ and C.BNEZ.
fn quadrant_1(half: u64) -> Option<u32>
    requires { field 0 2 half ≡ 0b01 }
    ensures { result ≡ expansion_in quadrant_1_rows half }
{
    let (rd, rs1, imm) = (rd(half), short_register(half, 7), small_immediate(half));
    match field(half, 13, 3) {
        0b000 => Some(format_i(OP_IMM, 0b000, rd, rd, imm)),
        0b001 if rd != 0 => Some(format_i(OP_IMM_32, 0b000, rd, rd, imm)),
        0b010 => Some(format_i(OP_IMM, 0b000, rd, 0, imm)),
        0b011 => upper(half),
        0b100 => computing(half),
        0b101 => Some(format_j(JAL, 0, jump_offset(half))),
        0b110 => Some(format_b(BRANCH, 0b000, rs1, 0, branch_offset(half))),
        0b111 => Some(format_b(BRANCH, 0b001, rs1, 0, branch_offset(half))),
        _ => None,
    }
}

/// C.ADDI16SP or C.LUI, which have no immediate 0.
fn upper(half: u64) -> Option<u32>
    requires low { field 0 2 half ≡ 0b01 }
    requires high { field 13 3 half ≡ 0b011 }
    ensures { result ≡ expansion_in upper_rows half }
{
    if amount(half) == 0 {
        None
    } else if rd(half) == 2 {
        Some(format_i(OP_IMM, 0b000, 2, 2, stack_step(half)))
    } else {
        Some(format_u(LUI, rd(half), upper_immediate(half)))
    }
}

/// C.SRLI, C.SRAI, C.ANDI, C.SUB, C.XOR, C.OR, C.AND, C.SUBW and C.ADDW.
fn computing(half: u64) -> Option<u32>
    requires low { field 0 2 half ≡ 0b01 }
    requires high { field 13 3 half ≡ 0b100 }
    ensures { result ≡ expansion_in computing_rows half }
{
    let rd = short_register(half, 7);
    let rs2 = short_register(half, 2);
    match (field(half, 10, 2), field(half, 12, 1), field(half, 5, 2)) {
        (0b00, _, _) => Some(format_i(OP_IMM, 0b101, rd, rd, amount(half))),
        (0b01, _, _) => Some(format_i(OP_IMM, 0b101, rd, rd, 0b010000_000000 + amount(half))),
        (0b10, _, _) => Some(format_i(OP_IMM, 0b111, rd, rd, small_immediate(half))),
        (0b11, 0, 0b00) => Some(format_r(OP, 0b000, 0b0100000, rd, rd, rs2)),
        (0b11, 0, 0b01) => Some(format_r(OP, 0b100, 0b0000000, rd, rd, rs2)),
        (0b11, 0, 0b10) => Some(format_r(OP, 0b110, 0b0000000, rd, rd, rs2)),
        (0b11, 0, 0b11) => Some(format_r(OP, 0b111, 0b0000000, rd, rd, rs2)),
        (0b11, 1, 0b00) => Some(format_r(OP_32, 0b000, 0b0100000, rd, rd, rs2)),
        (0b11, 1, 0b01) => Some(format_r(OP_32, 0b000, 0b0000000, rd, rd, rs2)),
        _ => None,
    }
}

/// C.SLLI, C.LWSP, C.LDSP, the forms of `registers`, C.SWSP and C.SDSP.
fn quadrant_2(half: u64) -> Option<u32>
    requires { field 0 2 half ≡ 0b10 }
    ensures { result ≡ expansion_in quadrant_2_rows half }
{
    let (rd, rs2) = (rd(half), rs2(half));
    match field(half, 13, 3) {
        0b000 => Some(format_i(OP_IMM, 0b001, rd, rd, amount(half))),
        0b010 if rd != 0 => Some(format_i(LOAD, 0b010, rd, 2, stack_word_load_offset(half))),
        0b011 if rd != 0 => Some(format_i(LOAD, 0b011, rd, 2, stack_double_load_offset(half))),
        0b100 => registers(half),
        0b110 => Some(format_s(STORE, 0b010, 2, rs2, stack_word_store_offset(half))),
        0b111 => Some(format_s(STORE, 0b011, 2, rs2, stack_double_store_offset(half))),
        _ => None,
    }
}

/// C.JR, C.MV, C.EBREAK, C.JALR and C.ADD.
fn registers(half: u64) -> Option<u32>
    requires low { field 0 2 half ≡ 0b10 }
    requires high { field 13 3 half ≡ 0b100 }
    ensures { result ≡ expansion_in register_rows half }
{
    let (rd, rs2) = (rd(half), rs2(half));
    match (field(half, 12, 1), rd, rs2) {
        (0, 0, 0) => None,
        (0, _, 0) => Some(format_i(JALR, 0b000, 0, rd, 0)),
        (0, _, _) => Some(format_r(OP, 0b000, 0b0000000, rd, 0, rs2)),
        (_, 0, 0) => Some(EBREAK),
        (_, _, 0) => Some(format_i(JALR, 0b000, 1, rd, 0)),
        _ => Some(format_r(OP, 0b000, 0b0000000, rd, rd, rs2)),
    }
}

#[cfg(test)]
mod tests {
    use super::expand;

    // The patterns of both columns are those that GNU as 2.40 makes of the instructions named.
    #[test]
    fn expands_assembled_forms(rt: HostRuntime) {
        let cases = [
            // c.li x1, 5; c.nop; c.jr x1; c.ebreak
            (0x4095, 0x0050_0093),
            (0x0001, 0x0000_0013),
            (0x8082, 0x0000_8067),
            (0x9002, 0x0010_0073),
            // c.addi4spn x8, x2, 1020
            (0x1fe0, 0x3fc1_0413),
            // c.lw x9, 124(x10)
            (0x5d64, 0x07c5_2483),
            // c.addiw x31, 31
            (0x2ffd, 0x01ff_8f9b),
            // c.addi16sp x2, -512
            (0x7101, 0xe001_0113),
            // c.addi16sp x2, 496
            (0x617d, 0x1f01_0113),
            // c.lui x1, 0xfffe0
            (0x7081, 0xfffe_00b7),
            // c.srai x9, 32
            (0x9481, 0x4204_d493),
            // c.subw x15, x8
            (0x9f81, 0x4087_87bb),
            // c.j .-2048
            (0xb001, 0x801f_f06f),
            // c.j .+1366
            (0xab99, 0x5560_006f),
            // c.bnez x15, .+170
            (0xe7cd, 0x0a07_9563),
            // c.ldsp x1, 504(x2)
            (0x70fe, 0x1f81_3083),
            // c.jalr x5
            (0x9282, 0x0002_80e7),
            // c.swsp x31, 252(x2)
            (0xdffe, 0x0ff1_2e23),
        ];
        for (half, want) in cases {
            assert_eq!(rt; expand(half), Some(want), "at {half:04x}");
        }
    }

    // GNU objdump 2.40 knows no instruction without floats for these.
    #[test]
    fn refuses_forms_without_a_row(rt: HostRuntime) {
        let halves = [
            // C.ADDI4SPN with the immediate 0
            0x0000, 0x0004,
            // C.ADDIW, C.LWSP and C.LDSP with rd = 0, C.JR of x0
            0x2001, 0x4002, 0x6002, 0x8002,
            // C.ADDI16SP and C.LUI with the immediate 0
            0x6101, 0x6081,
            // float forms
            0x2000, 0xa000, 0x2002, 0xa002,
            // patterns that the manual keeps free, and the start of a longer instruction
            0x8000, 0x9c41, 0xffff,
        ];
        for half in halves {
            assert_eq!(rt; expand(half), None, "at {half:04x}");
        }
    }
}
