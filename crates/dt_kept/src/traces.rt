use dt_record::Record;
use dt_verdict::Failure;

/// A record of a trace, with its number among its hart's records.
#[derive(Clone, Copy, Debug, PartialEq, Eq)]
pub struct Traced {
    pub seq: u32,
    pub event: Record,
}

/// What a replay shows of a failure.
#[derive(Debug, Drop)]
pub struct Trace {
    /// The records of all harts from the cut up to the failing one, by key.
    pub events: Vec<Traced>,
    pub failure: Failure,
}
