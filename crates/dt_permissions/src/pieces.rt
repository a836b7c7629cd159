ghost use Rattle.std.specs.Prelude.{◌≡◌, ◌+◌, ◌≤◌, length, get_or};
ghost use Rattle.std.specs.Int.{from_le_bytes, w64};
ghost use Rattle.dt_permissions.specs.Files.{part, harts_in};

/// So many bytes from a place on, or as many of them as there are.
#[tactic(auto, unfolding(crate::specs::Files::part))]
pub(crate) fn part(bytes: &[u8], at: usize, width: usize) -> &[u8]
    ensures { result.now ≡ part at width bytes.now }
{
    let rest = &bytes[at.min(bytes.len())..];
    &rest[..width.min(rest.len())]
}

/// The number in the eight bytes from a place on.
#[tactic(auto, unfolding(crate::specs::Files::part))]
pub(crate) fn number_at(bytes: &[u8], at: usize) -> u64
    requires { at + 8 ≤ length bytes.now }
    ensures { result ≡ from_le_bytes w64 (part at 8 bytes.now) }
{
    let mut field = [0; 8];
    field.copy_from_slice(&bytes[at..at + 8]);
    u64::from_le_bytes(field)
}

/// The byte at a place, and 0 where there is none.
pub(crate) fn byte_at(bytes: &[u8], at: usize) -> u8
    ensures { result ≡ get_or bytes.now at 0 }
{
    bytes.get(at).copied().unwrap_or(0)
}
