ghost use Rattle.std.specs.Prelude.{◌≡◌, ◌<◌, ◌≤◌, List, [], ◌∷◌, ◌++◌, IfOk, OnOk, length};
ghost use Rattle.dt_record.specs.declared.limits.TheConstants.{RECORD_LIMIT};
ghost use Rattle.dt_record.specs.declared.records.Record.{Record as RecordOf};
ghost use Rattle.dt_record.specs.Keys.{records_of};
ghost use Rattle.dt_kept.specs.States.{AreAllEventsFrom, AreEventsFrom};

use crate::states::{HartEvents, Kept};
use dt_record::{Record, Write};
use std::alloc::{AllocError, Global};

/// The records of one hart from a cut on, among those of a file.
pub fn events_from(
    alloc: Global,
    hart: u8,
    cut: u64,
    records: &[Record],
) -> Result<HartEvents, AllocError>
    requires { length records.now ≤ RECORD_LIMIT }
    ensures { IfOk result (λ kept. AreEventsFrom cut (records_of hart records.now) kept) }
{
    let mut kept = HartEvents {
        first: 0,
        events: Vec::new(alloc),
    };
    for event in records {
        if event.hart == hart {
            keep(&mut kept, cut, event)?;
        }
    }
    Ok(kept)
}

/// Counts one more record of the hart that is below the cut, or keeps it.
fn keep(kept: &mut HartEvents, cut: u64, event: &Record) -> Result<(), AllocError>
    requires { kept.old.first < RECORD_LIMIT }
    ensures { OnOk result ((own : List RecordOf) → AreEventsFrom cut own kept.old → AreEventsFrom cut (own ++ event.now ∷ []) kept.new) }
{
    if event.stamp < cut {
        kept.first += 1;
    } else {
        kept.events.push(*event)?;
    }
    Ok(())
}

/// What is kept of a file with so many harts and these records, from a cut on. The writes are all
/// those of the file, by key. After want of memory they are gone.
pub fn kept_from(
    alloc: Global,
    harts: u8,
    cut: u64,
    records: &[Record],
    writes: Vec<Write>,
) -> Result<Kept, AllocError>
    requires { length records.now ≤ RECORD_LIMIT }
    ensures events { IfOk result (λ kept. AreAllEventsFrom harts cut records.now kept.harts.items) }
    ensures writes { IfOk result (λ kept. kept.writes.items ≡ writes.items) }
{
    let mut kept = Vec::new(alloc);
    for hart in 0..harts {
        let events = events_from(alloc, hart, cut, records)?;
        kept.push(events)?;
    }
    Ok(Kept {
        harts: kept,
        writes,
    })
}
