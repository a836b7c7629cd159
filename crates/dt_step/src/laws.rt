//! Laws of the definitions: each function's contract is the law, and its body is empty.
ghost use Rattle.std.specs.Prelude.{ℕ, IfSome};
ghost use Rattle.dt_decode.specs.Table.{instr_of};
ghost use Rattle.dt_step.specs.Plans.{HasEvenTarget};

/// The jumps and branches that decoding gives go an even number of bytes.
pub fn decoded_targets_are_even()
    ensures { (bits : ℕ) → IfSome (instr_of bits) HasEvenTarget }
{}
