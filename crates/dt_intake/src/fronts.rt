//! Which of the taken records are usable.
ghost use Rattle.std.specs.Prelude.{◌≡◌, ◌==◌, ◌&&◌, [], ◌∷◌, ◌++◌, length};
ghost use Rattle.dt_intake.specs.Fronts.{stamp_after, may_be_next, usable_front};

use dt_record::{RECORD_LIMIT, Record, lawful};

/// The stamp of the last record, and 0 where there is none.
fn last_stamp(records: &[Record]) -> u64
    ensures { result ≡ stamp_after 0 records.now }
{
    match records.last() {
        Some(event) => event.stamp,
        None => 0,
    }
}

/// Whether the record may be the one with this number of the hart, after one with this stamp.
fn may_be_next(hart: u8, seq: usize, stamp: u64, event: &Record) -> bool
    ensures { result ≡ may_be_next hart seq stamp event.now }
{
    seq < RECORD_LIMIT as usize && lawful(event) && event.hart == hart && stamp <= event.stamp
}

/// Whether all taken records are usable, of which there are so many, and this one too after them.
fn goes_on(hart: u8, taken: &[Record], usable_len: usize, event: &Record) -> bool
    ensures { result ≡ ((usable_len == length taken.now) && may_be_next hart usable_len (stamp_after 0 taken.now) event.now) }
{
    usable_len == taken.len() && may_be_next(hart, usable_len, last_stamp(taken), event)
}

/// How many records are usable once this one is taken.
pub fn usable_len_with(hart: u8, taken: &[Record], usable_len: usize, event: &Record) -> usize
    requires { usable_len ≡ length (usable_front hart taken.now) }
    ensures { result ≡ length (usable_front hart (taken.now ++ event.now ∷ [])) }
{
    if goes_on(hart, taken, usable_len, event) {
        usable_len + 1
    } else {
        usable_len
    }
}
