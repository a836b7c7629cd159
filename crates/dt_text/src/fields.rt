ghost use Rattle.std.specs.Prelude.{◌≡◌, [], ◌++◌, OnOk, map, take, vec_len};
ghost use Rattle.std.specs.Fmt.{decimal};
ghost use Rattle.std.specs.Int.{w32, w64, to_be_bytes};
ghost use Rattle.std.specs.List.{join_with_byte};
ghost use Rattle.hex.specs.Hex.{encode_lower};
ghost use Rattle.dt_text.specs.Line.{field, sixteen_digits, double_field, word_field, decimal_field, bytes_field, doubles_field, key_text};

use dt_record::Key;
use std::alloc::AllocError;

fn put_name(out: &mut Vec<u8>, name: &str) -> Result<(), AllocError>
    ensures put { OnOk result (out.new.items ≡ out.old.items ++ field name.now []) }
    ensures front { take (vec_len out.old) out.new.items ≡ out.old.items }
{
    out.push(b' ')?;
    out.extend_from_slice(name.as_bytes())?;
    out.push(b'=')?;
    Ok(())
}

fn put_sixteen_digits(out: &mut Vec<u8>, number: u64) -> Result<(), AllocError>
    ensures put { OnOk result (out.new.items ≡ out.old.items ++ sixteen_digits number) }
    ensures front { take (vec_len out.old) out.new.items ≡ out.old.items }
{
    let mut digits = [0; 16];
    let _ = hex::encode_to_slice(number.to_be_bytes(), &mut digits);
    out.extend_from_slice(&digits)
}

fn put_eight_digits(out: &mut Vec<u8>, number: u32) -> Result<(), AllocError>
    ensures { OnOk result (out.new.items ≡ out.old.items ++ encode_lower (to_be_bytes w32 number)) }
{
    let mut digits = [0; 8];
    let _ = hex::encode_to_slice(number.to_be_bytes(), &mut digits);
    out.extend_from_slice(&digits)
}

/// Appends a decimal number. After want of memory `out` may end in a part of what was to come, behind
/// what was there, as after each of these functions.
pub fn put_number(out: &mut Vec<u8>, number: u64) -> Result<(), AllocError>
    ensures put { OnOk result (out.new.items ≡ out.old.items ++ decimal number) }
    ensures front { take (vec_len out.old) out.new.items ≡ out.old.items }
{
    let text = format!(in *out.allocator(); "{number}")?;
    out.extend_from_slice(text.as_bytes())
}

/// Appends a key as `stamp.hart.seq`.
#[tactic(auto, unfolding(crate::specs::Line::key_text))]
pub fn put_key(out: &mut Vec<u8>, key: Key) -> Result<(), AllocError>
    ensures put { OnOk result (out.new.items ≡ out.old.items ++ key_text key) }
    ensures front { take (vec_len out.old) out.new.items ≡ out.old.items }
{
    let Key { stamp, hart, seq } = key;
    let text = format!(in *out.allocator(); "{stamp}.{hart}.{seq}")?;
    out.extend_from_slice(text.as_bytes())
}

/// Appends ` name=` and 16 hexadecimal digits.
#[tactic(auto, unfolding(crate::specs::Line::double_field))]
pub fn put_double(out: &mut Vec<u8>, name: &str, number: u64) -> Result<(), AllocError>
    ensures put { OnOk result (out.new.items ≡ out.old.items ++ double_field name.now number) }
    ensures front { take (vec_len out.old) out.new.items ≡ out.old.items }
{
    put_name(out, name)?;
    put_sixteen_digits(out, number)
}

/// Appends ` name=` and 8 hexadecimal digits.
#[tactic(auto, unfolding(crate::specs::Line::word_field))]
pub(crate) fn put_word(out: &mut Vec<u8>, name: &str, number: u32) -> Result<(), AllocError>
    ensures { OnOk result (out.new.items ≡ out.old.items ++ word_field name.now number) }
{
    put_name(out, name)?;
    put_eight_digits(out, number)
}

/// Appends ` name=` and a decimal number.
#[tactic(auto, unfolding(crate::specs::Line::decimal_field))]
pub fn put_decimal(out: &mut Vec<u8>, name: &str, number: u64) -> Result<(), AllocError>
    ensures put { OnOk result (out.new.items ≡ out.old.items ++ decimal_field name.now number) }
    ensures front { take (vec_len out.old) out.new.items ≡ out.old.items }
{
    put_name(out, name)?;
    put_number(out, number)
}

/// Appends ` name=` and two hexadecimal digits for each byte of a line.
#[tactic(auto, unfolding(crate::specs::Line::bytes_field))]
pub(crate) fn put_bytes(out: &mut Vec<u8>, name: &str, bytes: &[u8; 64]) -> Result<(), AllocError>
    ensures { OnOk result (out.new.items ≡ out.old.items ++ bytes_field name.now bytes.now) }
{
    put_name(out, name)?;
    let mut digits = [0; 128];
    let _ = hex::encode_to_slice(*bytes, &mut digits);
    out.extend_from_slice(&digits)
}

fn put_joined(out: &mut Vec<u8>, numbers: &[u64]) -> Result<(), AllocError>
    ensures { OnOk result (out.new.items ≡ out.old.items ++ join_with_byte 44 (map sixteen_digits numbers.now)) }
{
    let [first, rest @ ..] = numbers else {
        return Ok(());
    };
    put_sixteen_digits(out, *first)?;
    for number in rest {
        out.push(b',')?;
        put_sixteen_digits(out, *number)?;
    }
    Ok(())
}

/// Appends ` name=` and numbers of 16 hexadecimal digits, joined by commas.
#[tactic(auto, unfolding(crate::specs::Line::doubles_field))]
pub(crate) fn put_doubles(out: &mut Vec<u8>, name: &str, numbers: &[u64]) -> Result<(), AllocError>
    ensures { OnOk result (out.new.items ≡ out.old.items ++ doubles_field name.now numbers.now) }
{
    put_name(out, name)?;
    put_joined(out, numbers)
}
