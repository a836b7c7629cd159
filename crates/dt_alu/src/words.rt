ghost use Rattle.std.specs.Prelude.{◌≡◌, IsTrue};
ghost use Rattle.dt_alu.specs.Alu.{has_word_form, operation_value, arithmetic_shift_of, signed_quotient_of, signed_remainder_of, unsigned_quotient_of, unsigned_remainder_of};

use crate::operations::AluOp;

/// What the operation of a W form gives on 32-bit words.
#[tactic(auto, using(crate::proofs::WordLemmas::differences), unfolding(crate::specs::Alu::operation_value))]
pub fn operation(op: AluOp, a: u32, b: u32) -> u32
    requires { IsTrue (has_word_form op) }
    ensures { result ≡ operation_value 32 op a b }
{
    match op {
        AluOp::Add => a.wrapping_add(b),
        AluOp::Sub => a.wrapping_sub(b),
        AluOp::Sll => a << (b % 32),
        AluOp::Srl => a >> (b % 32),
        AluOp::Sra => arithmetic_shift(a, b),
        AluOp::Mul => a.wrapping_mul(b),
        AluOp::Div => signed_quotient(a, b),
        AluOp::Divu => unsigned_quotient(a, b),
        AluOp::Rem => signed_remainder(a, b),
        AluOp::Remu => unsigned_remainder(a, b),
        _ => unreachable!(),
    }
}

fn arithmetic_shift(a: u32, b: u32) -> u32
    ensures { result ≡ arithmetic_shift_of 32 a b }
{
    (a.cast_signed() >> (b % 32)).cast_unsigned()
}

fn signed_quotient(a: u32, b: u32) -> u32
    ensures { result ≡ signed_quotient_of 32 a b }
{
    if b == 0 {
        u32::MAX
    } else {
        a.cast_signed()
            .wrapping_div(b.cast_signed())
            .cast_unsigned()
    }
}

fn signed_remainder(a: u32, b: u32) -> u32
    ensures { result ≡ signed_remainder_of 32 a b }
{
    if b == 0 {
        a
    } else {
        a.cast_signed()
            .wrapping_rem(b.cast_signed())
            .cast_unsigned()
    }
}

fn unsigned_quotient(a: u32, b: u32) -> u32
    ensures { result ≡ unsigned_quotient_of 32 a b }
{
    if b == 0 { u32::MAX } else { a / b }
}

fn unsigned_remainder(a: u32, b: u32) -> u32
    ensures { result ≡ unsigned_remainder_of a b }
{
    if b == 0 { a } else { a % b }
}
