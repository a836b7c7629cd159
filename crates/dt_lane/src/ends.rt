use dt_record::Record;
use dt_verdict::{Noted, Outcome};

/// What came of one hart.
#[derive(Debug, Drop)]
pub struct HartEnd {
    pub hart: u8,
    /// All records that were taken of it.
    pub taken: Vec<Record>,
    /// How many of them are allowed.
    pub judged: u32,
    pub outcome: Outcome,
    /// What a report says of the allowed ones.
    pub notes: Vec<Noted>,
}
