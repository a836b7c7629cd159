ghost use Rattle.std.specs.Prelude.{◌≡◌};
ghost use Rattle.dt_rules.specs.Reservations.{is_live};

use dt_record::Key;
use dt_versions::Moments;

/// Whether an SC with this key, to a word of the line, finds its reservation live: `reserved` is the
/// line and the key of the LR that made it. Then the SC may succeed or fail; else it must fail.
pub fn sc_live(m: &Moments, reserved: Option<(u64, Key)>, line: u64, key: Key) -> bool
    ensures { result ≡ is_live m.now.writes reserved line key }
{
    match reserved {
        Some((reserved_line, made)) => {
            reserved_line == line && !m.touched(line, made, key, key.hart)
        }
        None => false,
    }
}
