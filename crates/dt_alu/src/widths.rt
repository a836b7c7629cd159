ghost use Rattle.std.specs.Prelude.{◌≡◌, ◌-◌, ◌*◌, ◌^◌, ◌<◌};
ghost use Rattle.dt_alu.specs.Extend.{IsAccessWidth, low_bytes_of, sign_extended, extend_value};

/// The low `width` bytes of `raw`, sign-extended or zero-extended to 64 bits. The width is 1, 2, 4
/// or 8 (Volume I, sections 2.6 and 5.3).
#[tactic(auto, using(crate::proofs::ExtendLemmas::whole_words), unfolding(crate::specs::Extend::extend_value))]
pub fn extend(width: u8, signed: bool, raw: u64) -> u64
    requires { IsAccessWidth width }
    ensures whole { width ≡ 8 → result ≡ raw }
    ensures value { result ≡ extend_value width signed raw }
{
    let low = low_bytes(width, raw);
    if signed { sign_extend(width, low) } else { low }
}

/// The number that the low `width` bytes of `raw` spell.
pub(crate) fn low_bytes(width: u8, raw: u64) -> u64
    requires { IsAccessWidth width }
    ensures fits { result < 2 ^ (8 * width) }
    ensures value { result ≡ low_bytes_of width raw }
{
    match width {
        1 => raw & 0xFF,
        2 => raw & 0xFFFF,
        4 => raw & 0xFFFF_FFFF,
        _ => raw,
    }
}

fn sign_extend(width: u8, low: u64) -> u64
    requires width { IsAccessWidth width }
    requires fits { low < 2 ^ (8 * width) }
    ensures { result ≡ sign_extended (8 * width) low }
{
    let sign = sign_bit(width);
    if low < sign {
        low
    } else {
        let above = u64::MAX - sign - (sign - 1);
        low + above
    }
}

fn sign_bit(width: u8) -> u64
    requires { IsAccessWidth width }
    ensures { result ≡ 2 ^ (8 * width - 1) }
{
    match width {
        1 => 0x80,
        2 => 0x8000,
        4 => 0x8000_0000,
        _ => 0x8000_0000_0000_0000,
    }
}
