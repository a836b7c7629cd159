ghost use Rattle.std.specs.Prelude.{◌≡◌, ◌*◌, ◌/◌, ◌^◌, ℤ, pos, ◌*ℤ◌};
ghost use Rattle.dt_alu.specs.Words.{signed_value};
ghost use Rattle.dt_alu.specs.Alu.{operation_value, arithmetic_shift_of, signed_less_of, upper_half_of, signed_quotient_of, signed_remainder_of, unsigned_quotient_of, unsigned_remainder_of};

use crate::operations::AluOp;

/// What an operation gives on 64-bit words.
#[tactic(auto, using(crate::proofs::WordLemmas::differences), unfolding(crate::specs::Alu::operation_value))]
pub fn operation(op: AluOp, a: u64, b: u64) -> u64
    ensures { result ≡ operation_value 64 op a b }
{
    match op {
        AluOp::Add => a.wrapping_add(b),
        AluOp::Sub => a.wrapping_sub(b),
        AluOp::Sll => a << (b % 64),
        AluOp::Slt => signed_less(a, b),
        AluOp::Sltu => u64::from(a < b),
        AluOp::Xor => a ^ b,
        AluOp::Srl => a >> (b % 64),
        AluOp::Sra => arithmetic_shift(a, b),
        AluOp::Or => a | b,
        AluOp::And => a & b,
        AluOp::Mul => a.wrapping_mul(b),
        AluOp::Mulh => upper_signed(a, b),
        AluOp::Mulhsu => upper_mixed(a, b),
        AluOp::Mulhu => upper_unsigned(a, b),
        AluOp::Div => signed_quotient(a, b),
        AluOp::Divu => unsigned_quotient(a, b),
        AluOp::Rem => signed_remainder(a, b),
        AluOp::Remu => unsigned_remainder(a, b),
    }
}

fn signed_less(a: u64, b: u64) -> u64
    ensures { result ≡ signed_less_of 64 a b }
{
    u64::from(a.cast_signed() < b.cast_signed())
}

fn arithmetic_shift(a: u64, b: u64) -> u64
    ensures { result ≡ arithmetic_shift_of 64 a b }
{
    (a.cast_signed() >> (b % 64)).cast_unsigned()
}

fn upper_signed(a: u64, b: u64) -> u64
    ensures { result ≡ upper_half_of 64 (signed_value 64 a *ℤ signed_value 64 b) }
{
    upper_half(i128::from(a.cast_signed()) * i128::from(b.cast_signed()))
}

fn upper_mixed(a: u64, b: u64) -> u64
    ensures { result ≡ upper_half_of 64 (signed_value 64 a *ℤ pos b) }
{
    upper_half(i128::from(a.cast_signed()) * i128::from(b))
}

fn upper_unsigned(a: u64, b: u64) -> u64
    ensures { result ≡ upper_half_of 64 (pos a *ℤ pos b) }
{
    ((u128::from(a) * u128::from(b)) >> 64) as u64
}

fn upper_half(whole: i128) -> u64
    ensures { result ≡ upper_half_of 64 whole }
{
    ((whole >> 64) as i64).cast_unsigned()
}

fn signed_quotient(a: u64, b: u64) -> u64
    ensures { result ≡ signed_quotient_of 64 a b }
{
    if b == 0 {
        u64::MAX
    } else {
        a.cast_signed()
            .wrapping_div(b.cast_signed())
            .cast_unsigned()
    }
}

fn signed_remainder(a: u64, b: u64) -> u64
    ensures { result ≡ signed_remainder_of 64 a b }
{
    if b == 0 {
        a
    } else {
        a.cast_signed()
            .wrapping_rem(b.cast_signed())
            .cast_unsigned()
    }
}

fn unsigned_quotient(a: u64, b: u64) -> u64
    ensures { result ≡ unsigned_quotient_of 64 a b }
{
    if b == 0 { u64::MAX } else { a / b }
}

fn unsigned_remainder(a: u64, b: u64) -> u64
    ensures { result ≡ unsigned_remainder_of a b }
{
    if b == 0 { a } else { a % b }
}
