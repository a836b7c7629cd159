ghost use Rattle.std.specs.Prelude.{◌≡◌, ℕ, ◌+◌, ◌<◌, ◌≤◌, ◌^◌};
ghost use Rattle.dt_csr.specs.Fields.{field_of, with_field, merged};

/// A run of bits of a register: `width` bits from bit `low` on.
#[derive(Clone, Copy, Debug, PartialEq, Eq)]
pub struct Field {
    pub low: u32,
    pub width: u32,
}

impl Field {
    /// The field's value in a register.
    pub fn get(self, register: u64) -> u64
        requires low { self.low < 64 }
        requires width { self.width < 64 }
        ensures { result ≡ field_of register self }
    {
        (register >> self.low) & ((1 << self.width) - 1)
    }

    /// The register with this value in the field, and every other bit as it was.
    pub fn put(self, register: u64, value: u64) -> u64
        requires low { self.low < 64 }
        requires width { self.width < 64 }
        requires inside { self.low + self.width ≤ 64 }
        requires fits { value < 2 ^ self.width }
        ensures { result ≡ with_field register self value }
    {
        let mask = ((1 << self.width) - 1) << self.low;
        masked(mask, register, value << self.low)
    }
}

/// The old value with the bits under the mask taken from the new one.
pub fn masked(mask: u64, old: u64, new: u64) -> u64
    ensures { result ≡ merged mask old new }
{
    (old & !mask) | (new & mask)
}
