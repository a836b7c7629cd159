//! The fields of a 32-bit instruction word, and its immediates (The RISC-V Instruction Set Manual,
//! Volume I, sections 2.2 and 2.3).
ghost use Rattle.std.specs.Prelude.{◌≡◌, ◌^◌, ◌<◌, ◌≤◌};
ghost use Rattle.dt_decode.specs.Fields.{field, funct3_of, funct7_of, imm_b, imm_i, imm_j, imm_s, imm_u, opcode_of, rd_of, rs1_of, rs2_of, sign_extended};

/// The number in the `width` bits of a word from bit `low` on.
pub fn field(bits: u32, low: u32, width: u32) -> u32
    requires start { low < 32 }
    requires size { width < 32 }
    ensures value { result ≡ field low width bits }
    ensures small { result < 2 ^ width }
{
    (bits >> low) % (1 << width)
}

pub fn opcode(bits: u32) -> u8
    ensures { result ≡ opcode_of bits }
{
    field(bits, 0, 7) as u8
}

pub fn rd(bits: u32) -> u8
    ensures { result ≡ rd_of bits }
{
    field(bits, 7, 5) as u8
}

pub fn funct3(bits: u32) -> u8
    ensures { result ≡ funct3_of bits }
{
    field(bits, 12, 3) as u8
}

pub fn rs1(bits: u32) -> u8
    ensures { result ≡ rs1_of bits }
{
    field(bits, 15, 5) as u8
}

pub fn rs2(bits: u32) -> u8
    ensures { result ≡ rs2_of bits }
{
    field(bits, 20, 5) as u8
}

pub fn funct7(bits: u32) -> u8
    ensures { result ≡ funct7_of bits }
{
    field(bits, 25, 7) as u8
}

/// The number `raw` of `width` bits, with its sign, modulo 2^64.
fn sign_extended(raw: u32, width: u32) -> u64
    requires some { 0 < width }
    requires size { width ≤ 32 }
    requires fits { raw < 2 ^ width }
    ensures { result ≡ sign_extended width raw }
{
    let raw = u64::from(raw);
    if raw < 1 << (width - 1) {
        raw
    } else {
        raw.wrapping_sub(1 << width)
    }
}

pub fn immediate_i(bits: u32) -> u64
    ensures { result ≡ imm_i bits }
{
    sign_extended(field(bits, 20, 12), 12)
}

pub fn immediate_s(bits: u32) -> u64
    ensures { result ≡ imm_s bits }
{
    sign_extended((field(bits, 25, 7) << 5) + field(bits, 7, 5), 12)
}

pub fn immediate_b(bits: u32) -> u64
    ensures { result ≡ imm_b bits }
{
    let raw = (field(bits, 31, 1) << 12)
        + (field(bits, 7, 1) << 11)
        + (field(bits, 25, 6) << 5)
        + (field(bits, 8, 4) << 1);
    sign_extended(raw, 13)
}

pub fn immediate_u(bits: u32) -> u64
    ensures { result ≡ imm_u bits }
{
    sign_extended(field(bits, 12, 20) << 12, 32)
}

pub fn immediate_j(bits: u32) -> u64
    ensures { result ≡ imm_j bits }
{
    let raw = (field(bits, 31, 1) << 20)
        + (field(bits, 12, 8) << 12)
        + (field(bits, 20, 1) << 11)
        + (field(bits, 21, 10) << 1);
    sign_extended(raw, 21)
}
