/// What a hart holds of a line.
#[derive(Clone, Copy, Debug, PartialEq, Eq)]
pub enum Held {
    Nothing,
    Read,
    Write,
}

/// An event of a permission file: in the cycle `stamp` the hart was given Read (`op` is 1) or Write
/// (2) of a line, or was to give up what it held of it (3).
#[derive(Clone, Copy, Debug, PartialEq, Eq)]
pub struct PermEvent {
    pub op: u8,
    pub hart: u8,
    pub stamp: u64,
    pub line: u64,
}
