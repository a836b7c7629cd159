ghost use Rattle.std.specs.Prelude.{◌≡◌, ◌<◌, ◌≤◌, ℕ, IsTrue, false, length, slice_index};
ghost use Rattle.dt_probe_file.specs.Headers.{IsHeading, header_byte, field_start};

use dt_record::Version;

/// How many bytes a header has.
pub(crate) const HEADER_LEN: usize = 16;

/// A header of version 1 for one hart without Sv48.
const PLAIN: [u8; HEADER_LEN] = *b"SMPDIFF\0\x01\0\x01\0\0\0\0\0";

/// What stands at the front of a file.
#[derive(Clone, Copy, Debug)]
pub(crate) enum Heading {
    Whole {
        version: Version,
        harts: u8,
        wide: bool,
    },
    /// The beginning of a header, and the place of its first field that isn't whole.
    Begun {
        field: usize,
    },
    /// No header, whatever follows, and the place of its first field that is wrong.
    Wrong {
        field: usize,
    },
}

/// Whether a header may have this byte at this place.
fn may_stand(place: usize, byte: u8) -> bool
    requires { place < 16 }
    ensures { result ≡ header_byte place byte }
{
    match place {
        8 => byte == 1 || byte == 2,
        10 => matches!(byte, 1 | 2 | 3 | 4 | 5 | 6 | 7 | 8),
        11 => byte == 0 || byte == 1,
        _ => byte == PLAIN[place],
    }
}

/// How many bytes at the front of a file may stand in a header.
fn right_bytes(bytes: &[u8]) -> usize
    ensures within { result ≤ 16 }
    ensures inside { result ≤ length bytes.now }
    ensures right { (i : ℕ) → i < result → IsTrue (header_byte i (slice_index bytes.now i)) }
    ensures wrong { result < 16 → result < length bytes.now → header_byte result (slice_index bytes.now result) ≡ false }
{
    let front = &bytes[..bytes.len().min(HEADER_LEN)];
    for (place, byte) in front.iter().enumerate() {
        if !may_stand(place, *byte) {
            return place;
        }
    }
    front.len()
}

/// The place of the field that a place belongs to.
fn field_of(place: usize) -> usize
    requires { place < 16 }
    ensures { result ≡ field_start place }
{
    match place {
        0..8 => 0,
        8..10 => 8,
        10 => 10,
        11 => 11,
        _ => 12,
    }
}

/// What stands at the front of a file.
pub(crate) fn heading_of(bytes: &[u8]) -> Heading
    ensures { IsHeading bytes.now result }
{
    let right = right_bytes(bytes);
    if right == HEADER_LEN {
        let version = if bytes[8] == 1 {
            Version::One
        } else {
            Version::Two
        };
        return Heading::Whole {
            version,
            harts: bytes[10],
            wide: bytes[11] != 0,
        };
    }
    let field = field_of(right);
    if right == bytes.len() {
        Heading::Begun { field }
    } else {
        Heading::Wrong { field }
    }
}
