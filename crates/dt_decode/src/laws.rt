//! Laws of the instruction table.
ghost use Rattle.std.specs.Prelude.{◌≡◌, ◌↔◌, IfSome, IsTrue, Some, bit_and, slice_get, ℕ};
ghost use Rattle.dt_decode.specs.Decoded.{IsDecoded};
ghost use Rattle.dt_decode.specs.Masks.{mask_of, match_of};
ghost use Rattle.dt_decode.specs.Meaning.{IsMeaning};
ghost use Rattle.dt_decode.specs.Rows.{Row, fits};
ghost use Rattle.dt_decode.specs.Table.{instr_of, table};
ghost use Rattle.dt_decode.specs.declared.instructions.Instr.{Instr};

/// No word fits two rows of the table.
pub fn rows_are_apart()
    ensures { (bits i j : ℕ) (r s : Row) →
        slice_get table i ≡ Some r → slice_get table j ≡ Some s →
        IsTrue (fits r.fixed bits) → IsTrue (fits s.fixed bits) → i ≡ j }
{}

/// A word means what a row that it fits says, and nothing where it fits none, whatever the order of
/// the rows.
pub fn meaning_is_of_a_row()
    ensures { (bits : ℕ) (instr : Instr) → (instr_of bits ≡ Some instr) ↔ IsMeaning bits instr }
{}

/// A word fits a row exactly where its bits under the row's mask are the row's match.
pub fn rows_are_masks()
    ensures { (bits i : ℕ) (r : Row) → slice_get table i ≡ Some r →
        (IsTrue (fits r.fixed bits) ↔ (bit_and bits (mask_of r.fixed) ≡ match_of r.fixed)) }
{}

/// What a word means is well formed.
pub fn meaning_is_well_formed()
    ensures { (bits : ℕ) → IfSome (instr_of bits) IsDecoded }
{}
