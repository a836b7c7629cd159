ghost use Rattle.std.specs.Prelude.{◌≡◌, IsSome, Some, option_and_then, ℕ};
ghost use Rattle.dt_decode.specs.Table.{instr_of};
ghost use Rattle.dt_forms.specs.Meaning.{compressed_instr};
ghost use Rattle.dt_rvc.specs.Table.{expansion};

use dt_decode::meaning_is_of_a_row;

/// The decoder has a row for each expansion of a 16-bit pattern, and reads in it what the pattern's
/// form says.
pub fn expansions_are_decoded()
    ensures row { (half word : ℕ) → expansion half ≡ Some word → IsSome (instr_of word) }
    ensures meaning { (half : ℕ) → option_and_then instr_of (expansion half) ≡ compressed_instr half }
{
    meaning_is_of_a_row();
}
