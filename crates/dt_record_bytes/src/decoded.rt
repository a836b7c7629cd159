use dt_record::Record;

/// What the bytes of a record are, as far as they are there.
#[derive(Clone, Copy, Debug, PartialEq, Eq)]
pub enum Decoded {
    /// The bytes begin with a record, and so many of them are its spelling.
    Got { event: Record, len: usize },
    /// The bytes may be the beginning of a record.
    Short,
    /// The bytes are no record, whatever follows them: the place of what is wrong.
    Bad { at: usize },
}
