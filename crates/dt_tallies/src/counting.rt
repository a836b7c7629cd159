ghost use Rattle.std.specs.Prelude.{◌≡◌, ◌≤◌, length, if◌then◌else◌};
ghost use Rattle.dt_record.specs.declared.limits.TheConstants.{RECORD_LIMIT};
ghost use Rattle.dt_record.specs.Keys.{key_of, records_of};
ghost use Rattle.dt_record.specs.Writes.{writes_memory};
ghost use Rattle.dt_tallies.specs.Counting.{is_below, is_retired, counts_of, with_record, AreAtMost};

use dt_record::{Body, Key, Record};
use dt_verdict::Counts;

/// How many records of each kind a hart has among the records of a file, which come in the order of
/// the file. With a limit, as the key of the failing record, only records with a key below it count.
pub fn count(records: &[Record], hart: u8, limit: Option<Key>) -> Counts
    requires { length records.now ≤ RECORD_LIMIT }
    ensures { result ≡ counts_of limit (records_of hart records.now) }
{
    let mut counts = Counts::default();
    let mut seq = 0;
    for event in records {
        if event.hart == hart {
            counts = counted(counts, event, seq, limit);
            seq += 1;
        }
    }
    counts
}

/// Whether a key is below the limit, where there is one.
pub(crate) fn precedes(key: Key, limit: Option<Key>) -> bool
    ensures { result ≡ is_below limit key }
{
    match limit {
        Some(end) => key < end,
        None => true,
    }
}

/// The counts with the hart's next record, which counts where it is below the limit.
fn counted(counts: Counts, event: &Record, seq: u32, limit: Option<Key>) -> Counts
    requires { AreAtMost 4194303 counts }
    ensures { result ≡ if is_below limit (key_of seq event.now) then with_record counts event.now else counts }
{
    let key = Key {
        stamp: event.stamp,
        hart: event.hart,
        seq,
    };
    if precedes(key, limit) {
        one_more(counts, event)
    } else {
        counts
    }
}

fn one_more(counts: Counts, event: &Record) -> Counts
    requires { AreAtMost 4194303 counts }
    ensures { result ≡ with_record counts event.now }
{
    let body = &event.body;
    Counts {
        records: counts.records + 1,
        writes: counts.writes + u32::from(is_write(event)),
        retired: counts.retired + u32::from(is_retired(body)),
        traps: counts.traps + u32::from(matches!(body, Body::Trap { .. })),
        loads: counts.loads + u32::from(matches!(body, Body::Load { .. })),
        stores: counts.stores + u32::from(matches!(body, Body::Store { .. })),
        atomics: counts.atomics + u32::from(matches!(body, Body::Atomic { .. })),
        drains: counts.drains + u32::from(matches!(body, Body::Drain { .. })),
    }
}

/// Whether a record writes memory.
fn is_write(event: &Record) -> bool
    ensures { result ≡ writes_memory event.now }
{
    match event.body {
        Body::Drain { .. } => true,
        Body::Atomic { wrote, .. } => wrote,
        _ => false,
    }
}

/// Whether a record stands for a retired instruction.
fn is_retired(body: &Body) -> bool
    ensures { result ≡ is_retired body.now }
{
    matches!(
        body,
        Body::Commit { .. } | Body::Load { .. } | Body::Store { .. } | Body::Atomic { .. }
    )
}
