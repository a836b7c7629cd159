use dt_judge::Hart;
use dt_record::{Record, Write};

/// The states of all harts of a file at a cut, hart 0 first.
#[derive(Debug, Drop)]
pub struct Snapshot {
    /// The cycle: each hart has taken its records of the cycles below it, and none else.
    pub cut: u64,
    pub harts: Vec<Hart>,
}

/// The records of one hart from a cut on.
#[derive(Debug, Drop)]
pub struct HartEvents {
    /// The number of the first of them, or how many records the hart has where there is none.
    pub first: u32,
    pub events: Vec<Record>,
}

/// What judges a file from a cut on, beside the harts' states there.
#[derive(Debug, Drop)]
pub struct Kept {
    /// The records of each hart from the cut on, hart 0 first.
    pub harts: Vec<HartEvents>,
    /// All writes of the file, those below the cut too, by key.
    pub writes: Vec<Write>,
}
