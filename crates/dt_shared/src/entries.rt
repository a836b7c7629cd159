use dt_record::Note;

/// A note of the history, with the number of the pass that appended it.
#[derive(Clone, Copy, Debug, PartialEq, Eq)]
pub struct Entry {
    pub pass: u8,
    pub note: Note,
}
