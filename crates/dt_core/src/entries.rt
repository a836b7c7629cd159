use dt_record::Note;

/// A note of the history, and the number of the worker that appended it.
#[derive(Clone, Copy, Debug, PartialEq, Eq)]
pub struct Entry {
    pub worker: u8,
    pub note: Note,
}
