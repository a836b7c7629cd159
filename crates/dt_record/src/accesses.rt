use crate::keys::Key;

/// A store of a hart to RAM, which waits in the store buffer until a drain takes it.
#[derive(Clone, Copy, Debug, PartialEq, Eq)]
pub struct OwnStore {
    /// The number of the store's record among its hart's records.
    pub seq: u32,
    /// The address in RAM, a multiple of the width.
    pub addr: u64,
    /// How many bytes are stored: 1, 2, 4 or 8.
    pub width: u8,
    /// The bytes, the low byte at the lowest address. Bytes past the width do not count.
    pub value: u64,
}

/// A load from RAM, as it asks where its bytes may come from.
#[derive(Clone, Copy, Debug, PartialEq, Eq)]
pub struct LoadAsk {
    /// The key of the load's record.
    pub key: Key,
    /// The cycle in which the load was performed, at most the key's stamp.
    pub at: u64,
    /// The address in RAM, a multiple of the width.
    pub addr: u64,
    /// How many bytes are loaded: 1, 2, 4 or 8.
    pub width: u8,
    /// The loaded bytes before they are extended, the low byte from the lowest address.
    pub raw: u64,
}
