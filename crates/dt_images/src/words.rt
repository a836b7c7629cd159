ghost use Rattle.std.specs.Prelude.{◌≡◌, ◌+◌, ◌-◌, ◌*◌, ◌≤◌, ◌++◌, OnOk, length, replicate, take};
ghost use Rattle.std.specs.List.{flat_map};
ghost use Rattle.dt_record.specs.Spelling.{word};
ghost use Rattle.dt_images.specs.Words.{filled_to};

use std::alloc::AllocError;

/// Appends the bytes of a word.
#[tactic(auto, unfolding(dt_record::specs::Spelling::word))]
pub(crate) fn put_word(out: &mut Vec<u8>, number: u32) -> Result<(), AllocError>
    ensures bytes { OnOk result (out.new.items ≡ out.old.items ++ word number) }
    ensures length { OnOk result (length out.new.items ≡ length out.old.items + 4) }
{
    out.extend_from_slice(&number.to_le_bytes())
}

/// Appends the bytes of some words.
pub(crate) fn put_words(out: &mut Vec<u8>, numbers: &[u32]) -> Result<(), AllocError>
    ensures bytes { OnOk result (out.new.items ≡ out.old.items ++ flat_map word numbers.now) }
    ensures length { OnOk result (length out.new.items ≡ length out.old.items + 4 * length numbers.now) }
{
    for number in numbers {
        put_word(out, *number)?;
    }
    Ok(())
}

/// Appends zeros up to a length.
pub(crate) fn fill_to(out: &mut Vec<u8>, offset: usize) -> Result<(), AllocError>
    requires { length out.old.items ≤ offset }
    ensures bytes { OnOk result (out.new.items ≡ filled_to offset out.old.items) }
    ensures length { OnOk result (length out.new.items ≡ offset) }
{
    out.resize(offset, 0)
}
