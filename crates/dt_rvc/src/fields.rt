//! The fields of a 16-bit instruction, and its immediates (The RISC-V Instruction Set Manual, Volume
//! I, sections 16.2 and 16.8).
ghost use Rattle.std.specs.Prelude.{◌≡◌, ◌+◌, ◌^◌, ◌<◌, ◌≤◌};
ghost use Rattle.dt_rvc.specs.Fields.{amount_of, field, imm_addi16sp, imm_addi4spn, imm_branch, imm_double, imm_jump, imm_ldsp, imm_lui, imm_lwsp, imm_sdsp, imm_small, imm_swsp, imm_word, rd_of, rs2_of, short_register, sign_extended};

/// The number in the `width` bits from bit `low` on.
pub fn field(bits: u64, low: u32, width: u32) -> u64
    requires start { low < 64 }
    requires size { width < 64 }
    ensures value { result ≡ field low width bits }
    ensures small { result < 2 ^ width }
{
    (bits >> low) % (1 << width)
}

pub fn rd(half: u64) -> u32
    ensures value { result ≡ rd_of half }
    ensures small { result < 32 }
{
    field(half, 7, 5) as u32
}

pub fn rs2(half: u64) -> u32
    ensures value { result ≡ rs2_of half }
    ensures small { result < 32 }
{
    field(half, 2, 5) as u32
}

/// One of x8 to x15, by the three bits from bit `low` on.
pub fn short_register(half: u64, low: u32) -> u32
    requires { low < 64 }
    ensures value { result ≡ short_register low half }
    ensures small { result < 32 }
{
    8 + field(half, low, 3) as u32
}

/// The number `raw` of `width` bits, with its sign, modulo 2^64.
fn sign_extended(raw: u64, width: u32) -> u64
    requires some { 0 < width }
    requires size { width < 64 }
    requires fits { raw < 2 ^ width }
    ensures { result ≡ sign_extended width raw }
{
    if raw < 1 << (width - 1) {
        raw
    } else {
        raw.wrapping_sub(1 << width)
    }
}

/// The offset of C.ADDI4SPN.
pub fn stack_address_offset(half: u64) -> u64
    ensures { result ≡ imm_addi4spn half }
{
    (field(half, 11, 2) << 4)
        + (field(half, 7, 4) << 6)
        + (field(half, 6, 1) << 2)
        + (field(half, 5, 1) << 3)
}

/// The offset of C.LW and C.SW.
pub fn word_offset(half: u64) -> u64
    ensures { result ≡ imm_word half }
{
    (field(half, 10, 3) << 3) + (field(half, 6, 1) << 2) + (field(half, 5, 1) << 6)
}

/// The offset of C.LD and C.SD.
pub fn double_offset(half: u64) -> u64
    ensures { result ≡ imm_double half }
{
    (field(half, 10, 3) << 3) + (field(half, 5, 2) << 6)
}

/// The amount of a shift.
pub fn amount(half: u64) -> u64
    ensures value { result ≡ amount_of half }
    ensures small { result < 64 }
{
    (field(half, 12, 1) << 5) + field(half, 2, 5)
}

/// The immediate of C.ADDI, C.ADDIW, C.LI and C.ANDI.
pub fn small_immediate(half: u64) -> u64
    ensures { result ≡ imm_small half }
{
    sign_extended(amount(half), 6)
}

/// The immediate of C.ADDI16SP.
pub fn stack_step(half: u64) -> u64
    ensures { result ≡ imm_addi16sp half }
{
    let raw = (field(half, 12, 1) << 9)
        + (field(half, 6, 1) << 4)
        + (field(half, 5, 1) << 6)
        + (field(half, 3, 2) << 7)
        + (field(half, 2, 1) << 5);
    sign_extended(raw, 10)
}

/// The immediate of C.LUI.
pub fn upper_immediate(half: u64) -> u64
    ensures { result ≡ imm_lui half }
{
    sign_extended((field(half, 12, 1) << 17) + (field(half, 2, 5) << 12), 18)
}

/// The offset of C.J.
pub fn jump_offset(half: u64) -> u64
    ensures { result ≡ imm_jump half }
{
    let raw = (field(half, 12, 1) << 11)
        + (field(half, 11, 1) << 4)
        + (field(half, 9, 2) << 8)
        + (field(half, 8, 1) << 10)
        + (field(half, 7, 1) << 6)
        + (field(half, 6, 1) << 7)
        + (field(half, 3, 3) << 1)
        + (field(half, 2, 1) << 5);
    sign_extended(raw, 12)
}

/// The offset of C.BEQZ and C.BNEZ.
pub fn branch_offset(half: u64) -> u64
    ensures { result ≡ imm_branch half }
{
    let raw = (field(half, 12, 1) << 8)
        + (field(half, 10, 2) << 3)
        + (field(half, 5, 2) << 6)
        + (field(half, 3, 2) << 1)
        + (field(half, 2, 1) << 5);
    sign_extended(raw, 9)
}

/// The offset of C.LWSP.
pub fn stack_word_load_offset(half: u64) -> u64
    ensures { result ≡ imm_lwsp half }
{
    (field(half, 12, 1) << 5) + (field(half, 4, 3) << 2) + (field(half, 2, 2) << 6)
}

/// The offset of C.LDSP.
pub fn stack_double_load_offset(half: u64) -> u64
    ensures { result ≡ imm_ldsp half }
{
    (field(half, 12, 1) << 5) + (field(half, 5, 2) << 3) + (field(half, 2, 3) << 6)
}

/// The offset of C.SWSP.
pub fn stack_word_store_offset(half: u64) -> u64
    ensures { result ≡ imm_swsp half }
{
    (field(half, 9, 4) << 2) + (field(half, 7, 2) << 6)
}

/// The offset of C.SDSP.
pub fn stack_double_store_offset(half: u64) -> u64
    ensures { result ≡ imm_sdsp half }
{
    (field(half, 10, 3) << 3) + (field(half, 7, 3) << 6)
}
