//! The instructions that access or order memory: opcodes LOAD, STORE, MISC-MEM and AMO (The RISC-V
//! Instruction Set Manual, Volume I, sections 2.6, 2.7 and 5.3 and chapters 3 and 8).
ghost use Rattle.std.specs.Prelude.{◌≡◌, ◌<◌, option_map, ℕ};
ghost use Rattle.dt_decode.specs.Fields.{flag, funct3_of, opcode_of};
ghost use Rattle.dt_decode.specs.Forms.{Atomic};
ghost use Rattle.dt_decode.specs.Rows.{first_form, instr_in};
ghost use Rattle.dt_decode.specs.Table.{amo_rows_of, atomic_rows, atomic_rows_of, fence_rows, load_rows, store_rows};

use crate::fields::{field, funct3, immediate_i, immediate_s, rd, rs1, rs2};
use crate::instructions::Instr;
use dt_alu::AmoOp;

pub fn load(bits: u32) -> Option<Instr>
    requires { opcode_of bits ≡ 0b0000011 }
    ensures { result ≡ instr_in load_rows bits }
{
    let (width, signed) = match funct3(bits) {
        0b000 => (1, true),
        0b001 => (2, true),
        0b010 => (4, true),
        0b011 => (8, true),
        0b100 => (1, false),
        0b101 => (2, false),
        0b110 => (4, false),
        _ => return None,
    };
    Some(Instr::Load {
        width,
        signed,
        rd: rd(bits),
        rs1: rs1(bits),
        imm: immediate_i(bits),
    })
}

pub fn store(bits: u32) -> Option<Instr>
    requires { opcode_of bits ≡ 0b0100011 }
    ensures { result ≡ instr_in store_rows bits }
{
    let width = match funct3(bits) {
        0b000 => 1,
        0b001 => 2,
        0b010 => 4,
        0b011 => 8,
        _ => return None,
    };
    Some(Instr::Store {
        width,
        rs1: rs1(bits),
        rs2: rs2(bits),
        imm: immediate_s(bits),
    })
}

/// FENCE, whose register fields are ignored, or FENCE.I, whose other fields are all ignored.
pub fn fence(bits: u32) -> Option<Instr>
    requires { opcode_of bits ≡ 0b0001111 }
    ensures { result ≡ instr_in fence_rows bits }
{
    match funct3(bits) {
        0b000 => {
            let fm = field(bits, 28, 4) as u8;
            let pred = field(bits, 24, 4) as u8;
            let succ = field(bits, 20, 4) as u8;
            Some(Instr::Fence { fm, pred, succ })
        }
        0b001 => Some(Instr::FenceI),
        _ => None,
    }
}

fn flag(bits: u32, at: u32) -> bool
    requires { at < 32 }
    ensures { result ≡ flag at bits }
{
    field(bits, at, 1) == 1
}

/// A load that reserves, a store on condition, or an atomic operation on memory.
pub fn atomic(bits: u32) -> Option<Instr>
    requires { opcode_of bits ≡ 0b0101111 }
    ensures { result ≡ instr_in atomic_rows bits }
{
    match funct3(bits) {
        0b010 => atomic_of(bits, 4),
        0b011 => atomic_of(bits, 8),
        _ => None,
    }
}

/// An atomic instruction on `width` bytes.
fn atomic_of(bits: u32, width: u8) -> Option<Instr>
    requires { opcode_of bits ≡ 0b0101111 }
    ensures { result ≡ instr_in (atomic_rows_of (funct3_of bits) width) bits }
{
    let (aq, rl) = (flag(bits, 26), flag(bits, 25));
    let (rd, rs1, rs2) = (rd(bits), rs1(bits), rs2(bits));
    match field(bits, 27, 5) {
        0b00010 if rs2 == 0 => Some(Instr::Lr {
            width,
            aq,
            rl,
            rd,
            rs1,
        }),
        0b00011 => Some(Instr::Sc {
            width,
            aq,
            rl,
            rd,
            rs1,
            rs2,
        }),
        _ => Some(Instr::Amo {
            op: operation(bits)?,
            width,
            aq,
            rl,
            rd,
            rs1,
            rs2,
        }),
    }
}

fn operation(bits: u32) -> Option<AmoOp>
    requires { opcode_of bits ≡ 0b0101111 }
    ensures { (width : ℕ) →
        option_map (λ op. Atomic op width) result ≡ first_form (amo_rows_of (funct3_of bits) width) bits }
{
    match field(bits, 27, 5) {
        0b00001 => Some(AmoOp::Swap),
        0b00000 => Some(AmoOp::Add),
        0b00100 => Some(AmoOp::Xor),
        0b01100 => Some(AmoOp::And),
        0b01000 => Some(AmoOp::Or),
        0b10000 => Some(AmoOp::Min),
        0b10100 => Some(AmoOp::Max),
        0b11000 => Some(AmoOp::Minu),
        0b11100 => Some(AmoOp::Maxu),
        _ => None,
    }
}
