ghost use Rattle.std.specs.Prelude.{◌≡◌, IsTrue};
ghost use Rattle.dt_alu.specs.Alu.{has_word_form, alu_value};

use crate::operations::AluOp;
use crate::widths::extend;
use crate::{doublewords, words};

/// What an integer instruction writes to rd, from the 64-bit values of its two operands. With
/// `word` it is the instruction's W form (Volume I, chapters 2, 5 and 7).
#[tactic(auto, unfolding(crate::specs::Alu::alu_value))]
pub fn alu(op: AluOp, word: bool, a: u64, b: u64) -> u64
    requires { IsTrue word → IsTrue (has_word_form op) }
    ensures { result ≡ alu_value op word a b }
{
    if word {
        let low = words::operation(op, (a & 0xFFFF_FFFF) as u32, (b & 0xFFFF_FFFF) as u32);
        extend(4, true, u64::from(low))
    } else {
        doublewords::operation(op, a, b)
    }
}
