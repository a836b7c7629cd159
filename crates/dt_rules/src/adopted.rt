ghost use Rattle.std.specs.Prelude.{◌≡◌, ◌≤◌, ◌↔◌, IsTrue, bit_and};
ghost use Rattle.dt_alu.specs.Extend.{IsAccessWidth, extend_value};
ghost use Rattle.dt_rules.specs.Adopted.{HasOnlyBitsOf};

use dt_alu::extend;

/// Whether a counter may show `found`: it is not below the counter's floor, the least value that it
/// may show.
pub fn counter(floor: u64, found: u64) -> bool
    ensures { IsTrue result ↔ (floor ≤ found) }
{
    floor <= found
}

/// Whether mip or sip may show `found`: it has only bits of the mask.
pub fn pending(mask: u64, found: u64) -> bool
    ensures bits { IsTrue result ↔ HasOnlyBitsOf mask found }
    ensures masked { IsTrue result ↔ (bit_and found mask ≡ found) }
{
    found & mask == found
}

/// Whether a load of this many bytes (1, 2, 4 or 8) from a device may give `found`: it is the
/// extension of its own low bytes.
pub fn device(width: u8, signed: bool, found: u64) -> bool
    requires { IsAccessWidth width }
    ensures { IsTrue result ↔ (extend_value width signed found ≡ found) }
{
    extend(width, signed, found) == found
}
