use crate::entries::Entry;
use dt_record::Note;
use std::collections::LinkedList;

/// What a pass knows. No value of it is made.
pub struct Known {
    pub number: u8,
    /// The history, as far as it was seen.
    pub seen: LinkedList<Entry>,
    /// The notes that the pass appended, in order.
    pub own: LinkedList<Note>,
    pub stopped: bool,
    pub saw_stop: bool,
}

/// What a seat at the table knows. No value of it is made.
pub struct View {
    /// The passes for which the seat stands: one, or more once passes were joined, or none once it was
    /// joined to another.
    pub passes: LinkedList<Known>,
    /// How many passes were made, if this is the seat from which they are cut, and else 0.
    pub made: u64,
    /// The number that the seat drew, counted without end, while it stands in the line.
    pub ticket: Option<u64>,
    /// The history, while the seat has the slot.
    pub held: Option<LinkedList<Entry>>,
}
