ghost use Rattle.std.specs.Prelude.{◌≡◌};
ghost use Rattle.dt_alu.specs.Compare.{compare_value};

use crate::operations::Cond;

/// Whether a branch with this condition is taken on the 64-bit values `a` and `b`
/// (Volume I, section 2.5).
#[tactic(auto, unfolding(crate::specs::Compare::compare_value))]
pub fn compare(c: Cond, a: u64, b: u64) -> bool
    ensures { result ≡ compare_value c a b }
{
    match c {
        Cond::Eq => a == b,
        Cond::Ne => a != b,
        Cond::Lt => a.cast_signed() < b.cast_signed(),
        Cond::Ge => a.cast_signed() >= b.cast_signed(),
        Cond::Ltu => a < b,
        Cond::Geu => a >= b,
    }
}
