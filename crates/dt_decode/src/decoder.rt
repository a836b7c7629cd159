//! The decoder of 32-bit instruction words.
ghost use Rattle.std.specs.Prelude.{◌≡◌, IfSome};
ghost use Rattle.dt_decode.specs.Decoded.{IsDecoded};
ghost use Rattle.dt_decode.specs.Table.{instr_of};

use crate::computing::{with_immediate, with_register, word_with_immediate, word_with_register};
use crate::control::{branch, jump_register, system};
use crate::fields::{immediate_j, immediate_u, opcode, rd};
use crate::instructions::Instr;
use crate::memory::{atomic, fence, load, store};

/// What a 32-bit word means. None exactly where no row of the instruction table fits it.
#[tactic(auto, unfolding(crate::specs::Table::instr_of))]
pub fn decode(bits: u32) -> Option<Instr>
    ensures meaning { result ≡ instr_of bits }
    ensures well_formed { IfSome result IsDecoded }
{
    match opcode(bits) {
        0b0110111 => Some(Instr::Lui {
            rd: rd(bits),
            imm: immediate_u(bits),
        }),
        0b0010111 => Some(Instr::Auipc {
            rd: rd(bits),
            imm: immediate_u(bits),
        }),
        0b1101111 => Some(Instr::Jal {
            rd: rd(bits),
            imm: immediate_j(bits),
        }),
        0b1100111 => jump_register(bits),
        0b1100011 => branch(bits),
        0b0000011 => load(bits),
        0b0100011 => store(bits),
        0b0010011 => with_immediate(bits),
        0b0011011 => word_with_immediate(bits),
        0b0110011 => with_register(bits),
        0b0111011 => word_with_register(bits),
        0b0001111 => fence(bits),
        0b0101111 => atomic(bits),
        0b1110011 => system(bits),
        _ => None,
    }
}

#[cfg(test)]
mod tests {
    use super::decode;
    use crate::instructions::{CsrOp, Instr};
    use dt_alu::{AluOp, AmoOp, Cond};

    // The words are those that GNU as 2.40 makes of the instructions beside them.
    #[test]
    fn decodes_assembled_words(rt: HostRuntime) {
        let cases = [
            // lui x5, 0xfffff
            (
                0xffff_f2b7,
                Instr::Lui {
                    rd: 5,
                    imm: 0xffff_ffff_ffff_f000,
                },
            ),
            // auipc x30, 0x10
            (
                0x0001_0f17,
                Instr::Auipc {
                    rd: 30,
                    imm: 0x1_0000,
                },
            ),
            // jal x0, .+0x56ade
            (
                0x2df5_606f,
                Instr::Jal {
                    rd: 0,
                    imm: 0x5_6ade,
                },
            ),
            // jalr x1, -4(x31)
            (
                0xffcf_80e7,
                Instr::Jalr {
                    rd: 1,
                    rs1: 31,
                    imm: 0xffff_ffff_ffff_fffc,
                },
            ),
            // blt x3, x4, .-0x556
            (
                0xaa41_c5e3,
                Instr::Branch {
                    cond: Cond::Lt,
                    rs1: 3,
                    rs2: 4,
                    imm: 0xffff_ffff_ffff_faaa,
                },
            ),
            // lbu x6, -1(x7)
            (
                0xfff3_c303,
                Instr::Load {
                    width: 1,
                    signed: false,
                    rd: 6,
                    rs1: 7,
                    imm: 0xffff_ffff_ffff_ffff,
                },
            ),
            // sd x8, -2048(x9)
            (
                0x8084_b023,
                Instr::Store {
                    width: 8,
                    rs1: 9,
                    rs2: 8,
                    imm: 0xffff_ffff_ffff_f800,
                },
            ),
            // addi x1, x0, 5
            (
                0x0050_0093,
                Instr::AluImm {
                    op: AluOp::Add,
                    word: false,
                    rd: 1,
                    rs1: 0,
                    imm: 5,
                },
            ),
            // srai x1, x2, 33
            (
                0x4211_5093,
                Instr::AluImm {
                    op: AluOp::Sra,
                    word: false,
                    rd: 1,
                    rs1: 2,
                    imm: 33,
                },
            ),
            // sraiw x1, x2, 31
            (
                0x41f1_509b,
                Instr::AluImm {
                    op: AluOp::Sra,
                    word: true,
                    rd: 1,
                    rs1: 2,
                    imm: 31,
                },
            ),
            // mulhsu x3, x4, x5
            (
                0x0252_21b3,
                Instr::Alu {
                    op: AluOp::Mulhsu,
                    word: false,
                    rd: 3,
                    rs1: 4,
                    rs2: 5,
                },
            ),
            // remuw x3, x4, x5
            (
                0x0252_71bb,
                Instr::Alu {
                    op: AluOp::Remu,
                    word: true,
                    rd: 3,
                    rs1: 4,
                    rs2: 5,
                },
            ),
            // fence.tso
            (
                0x8330_000f,
                Instr::Fence {
                    fm: 8,
                    pred: 3,
                    succ: 3,
                },
            ),
            // fence.i
            (0x0000_100f, Instr::FenceI),
            // lr.w.aq x1, (x2)
            (
                0x1401_20af,
                Instr::Lr {
                    width: 4,
                    aq: true,
                    rl: false,
                    rd: 1,
                    rs1: 2,
                },
            ),
            // sc.d.rl x3, x4, (x5)
            (
                0x1a42_b1af,
                Instr::Sc {
                    width: 8,
                    aq: false,
                    rl: true,
                    rd: 3,
                    rs1: 5,
                    rs2: 4,
                },
            ),
            // amoswap.w x6, x7, (x8)
            (
                0x0874_232f,
                Instr::Amo {
                    op: AmoOp::Swap,
                    width: 4,
                    aq: false,
                    rl: false,
                    rd: 6,
                    rs1: 8,
                    rs2: 7,
                },
            ),
            // csrrci x3, cycle, 31
            (
                0xc00f_f1f3,
                Instr::Csr {
                    op: CsrOp::Clear,
                    number: 0xc00,
                    rd: 3,
                    source: 31,
                    immediate: true,
                },
            ),
            // ecall, ebreak, sret, mret, wfi
            (0x0000_0073, Instr::Ecall),
            (0x0010_0073, Instr::Ebreak),
            (0x1020_0073, Instr::Sret),
            (0x3020_0073, Instr::Mret),
            (0x1050_0073, Instr::Wfi),
            // sfence.vma x1, x2
            (0x1220_8073, Instr::SfenceVma { rs1: 1, rs2: 2 }),
        ];
        for (word, want) in cases {
            assert_eq!(rt; decode(word), Some(want), "at {word:08x}");
        }
    }

    // GNU objdump 2.40 knows no instruction of RV64IMA for these.
    #[test]
    fn refuses_words_without_a_row(rt: HostRuntime) {
        let words = [
            0x0000_0000,
            0xffff_ffff,
            // a branch of funct3 010, a load of 111, a store of 100
            0x0000_2063,
            0x0000_7003,
            0x0000_4023,
            // srai with funct6 010001, srliw with bit 25, lr.w with rs2 = 1
            0x4400_5013,
            0x0200_501b,
            0x1010_202f,
            // sfence.vma with rd = 1, funct3 100 of SYSTEM, flw
            0x1200_00f3,
            0x0000_4073,
            0x0000_2007,
        ];
        for word in words {
            assert_eq!(rt; decode(word), None, "at {word:08x}");
        }
    }
}
