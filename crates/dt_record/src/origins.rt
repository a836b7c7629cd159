ghost use Rattle.std.specs.Prelude.{◌≡◌};
ghost use Rattle.dt_record.specs.Letters.{has_letter};

use crate::keys::Key;

/// Where one byte of a load comes from.
#[derive(Clone, Copy, Debug, PartialEq, Eq)]
pub enum Origin {
    /// The memory image: no write has covered the byte.
    Image,
    /// The write with this key.
    Write(Key),
    /// The hart's own store with this seq, which was still in its store buffer.
    Store(u32),
}

/// Where the bytes of a load come from, the byte at the lowest address first. Entries from place
/// `count` on are `Image`.
#[derive(Clone, Copy, Debug, PartialEq, Eq)]
pub struct Sources {
    /// How many bytes were read from RAM: 0, 1, 2, 4 or 8.
    pub count: u8,
    pub from: [Origin; 8],
}

/// Which rules settled a departure from the reference at one record, by the letters that reports
/// print: L load from a newer write, S failed SC, P older translation or fetch, I interrupt,
/// D device read, C counter or pending bits, Z tval 0.
#[derive(Clone, Copy, Debug, PartialEq, Eq)]
pub struct Letters {
    pub l: bool,
    pub s: bool,
    pub p: bool,
    pub i: bool,
    pub d: bool,
    pub c: bool,
    pub z: bool,
}

impl Letters {
    /// Whether some rule settled a departure.
    pub fn has_any(&self) -> bool
        ensures { result ≡ has_letter self.now }
    {
        self.l || self.s || self.p || self.i || self.d || self.c || self.z
    }
}
