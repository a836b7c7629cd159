ghost use Rattle.std.specs.Prelude.{◌≡◌, ◌*◌, ◌^◌, ◌<◌, int_lt};
ghost use Rattle.dt_alu.specs.Words.{signed_value};
ghost use Rattle.dt_alu.specs.Amo.{IsAmoWidth, lesser_of, greater_of, amo_value};

use crate::operations::AmoOp;
use crate::widths::{extend, low_bytes};

/// What an atomic memory operation of 4 or 8 bytes writes where memory has `old` and the register
/// `b`: its low `width` bytes, the rest zero. It works on the low `width` bytes of both
/// (Volume I, section 8.4).
#[tactic(auto, unfolding(crate::specs::Amo::amo_value, crate::specs::Amo::written_word))]
pub fn amo(op: AmoOp, width: u8, old: u64, b: u64) -> u64
    requires { IsAmoWidth width }
    ensures fits { result < 2 ^ (8 * width) }
    ensures value { result ≡ amo_value op width old b }
{
    let old = low_bytes(width, old);
    let b = low_bytes(width, b);
    match op {
        AmoOp::Swap => b,
        AmoOp::Add => low_bytes(width, old.wrapping_add(b)),
        AmoOp::Xor => old ^ b,
        AmoOp::And => old & b,
        AmoOp::Or => old | b,
        AmoOp::Min => lesser(width, old, b),
        AmoOp::Max => greater(width, old, b),
        AmoOp::Minu => old.min(b),
        AmoOp::Maxu => old.max(b),
    }
}

fn lesser(width: u8, left: u64, right: u64) -> u64
    requires width { IsAmoWidth width }
    requires left { left < 2 ^ (8 * width) }
    requires right { right < 2 ^ (8 * width) }
    ensures { result ≡ lesser_of (8 * width) left right }
{
    if is_less(width, left, right) {
        left
    } else {
        right
    }
}

fn greater(width: u8, left: u64, right: u64) -> u64
    requires width { IsAmoWidth width }
    requires left { left < 2 ^ (8 * width) }
    requires right { right < 2 ^ (8 * width) }
    ensures { result ≡ greater_of (8 * width) left right }
{
    if is_less(width, left, right) {
        right
    } else {
        left
    }
}

fn is_less(width: u8, left: u64, right: u64) -> bool
    requires width { IsAmoWidth width }
    requires left { left < 2 ^ (8 * width) }
    requires right { right < 2 ^ (8 * width) }
    ensures { result ≡ int_lt (signed_value (8 * width) left) (signed_value (8 * width) right) }
{
    extend(width, true, left).cast_signed() < extend(width, true, right).cast_signed()
}
