ghost use Rattle.std.specs.Prelude.{◌≡◌, ◌≤◌};
ghost use Rattle.dt_short_bytes.specs.ShortForms.{field_count, line_count};

use dt_record::Kind;

/// How many number fields records of a kind have.
pub(crate) fn fields_of(kind: Kind) -> u8
    ensures exact { result ≡ field_count kind }
    ensures bound { result ≤ 32 }
{
    match kind {
        Kind::Commit => 3,
        Kind::Trap => 4,
        Kind::Regs => 32,
        Kind::Csrs => 18,
        Kind::Load => 5,
        Kind::Store => 4,
        Kind::Atomic => 7,
        Kind::Drain => 3,
        Kind::Refill => 1,
        Kind::Beat => 0,
    }
}

/// How many bytes of a line follow the number fields.
pub(crate) fn line_len(kind: Kind, numbers: &[u64; 32]) -> usize
    ensures { result ≡ line_count kind numbers.now }
{
    match kind {
        Kind::Drain => numbers[1].count_ones() as usize,
        Kind::Refill => 64,
        _ => 0,
    }
}
