ghost use Rattle.std.specs.Prelude.{◌≡◌};
ghost use Rattle.dt_record.specs.Keys.{key_of};

use crate::records::Record;

/// The place of a record in the order of all records of a file: by cycle, then by hart, then by
/// its number among the hart's records. This project's own order.
#[derive(Clone, Copy, Debug, PartialEq, Eq, PartialOrd, Ord)]
pub struct Key {
    /// The cycle.
    pub stamp: u64,
    pub hart: u8,
    /// The record's number among its hart's records, from 0.
    pub seq: u32,
}

/// The key of a record with this number among its hart's records.
pub fn key_of(event: &Record, seq: u32) -> Key
    ensures { result ≡ key_of seq event.now }
{
    Key {
        stamp: event.stamp,
        hart: event.hart,
        seq,
    }
}
