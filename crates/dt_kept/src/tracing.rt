ghost use Rattle.std.specs.Prelude.{◌≡◌, ◌+◌, ◌<◌, ◌≤◌, ℕ, Bool, not, List, ◌∷◌, ◌++◌, IfOk, OnOk, length};
ghost use Rattle.dt_record.specs.declared.limits.TheConstants.{RECORD_LIMIT};
ghost use Rattle.dt_record.specs.declared.records.Record.{Record as RecordOf};
ghost use Rattle.dt_record.specs.Keys.{key_below, key_of};
ghost use Rattle.dt_reading.specs.Reading.{AreStreamed};
ghost use Rattle.dt_kept.specs.States.{AreAllEventsFrom, IsOfAFile};
ghost use Rattle.dt_kept.specs.Traces.{trace_of, traced_by_key};
ghost use Rattle.dt_kept.specs.Tracing.{all_traced, own_traced, traced_one};

use crate::states::HartEvents;
use crate::traces::Traced;
use dt_record::{Key, Record, key_of};
use dt_runs::file_records_are_own;
use dt_writes::stable_sorts_are_one;
use std::alloc::{AllocError, Global};

/// The trace of a failure with this key, from the records of all harts of a file from a cut on.
pub fn traced_events(
    alloc: Global,
    kept: &[HartEvents],
    failing: Key,
) -> Result<Vec<Traced>, AllocError>
    requires { IsOfAFile kept.now }
    ensures { IfOk result (λ traced. (harts cut : ℕ) (records : List RecordOf) → AreStreamed harts records
        → AreAllEventsFrom harts cut records kept.now → traced.items ≡ trace_of cut failing records) }
{
    file_records_are_own();
    let mut traced = Vec::new(alloc);
    for events in kept {
        add_all(&mut traced, events, failing)?;
    }
    sort(&mut traced)?;
    Ok(traced)
}

/// Adds those of one hart's records that stand not behind the failing one.
fn add_all(traced: &mut Vec<Traced>, kept: &HartEvents, failing: Key) -> Result<(), AllocError>
    requires { kept.now.first + length kept.now.events.items ≤ RECORD_LIMIT }
    ensures { OnOk result (traced.new.items ≡ traced.old.items ++ own_traced failing kept.now.first kept.now.events.items) }
{
    let mut seq = kept.first;
    for event in &kept.events {
        add(traced, seq, event, failing)?;
        seq += 1;
    }
    Ok(())
}

/// Adds the record with this number, where it stands not behind the failing one.
fn add(traced: &mut Vec<Traced>, seq: u32, event: &Record, failing: Key) -> Result<(), AllocError>
    ensures { OnOk result (traced.new.items ≡ traced.old.items ++ traced_one failing seq event.now) }
{
    if failing < key_of(event, seq) {
        return Ok(());
    }
    traced.push(Traced { seq, event: *event })?;
    Ok(())
}

fn sort(traced: &mut Vec<Traced>) -> Result<(), AllocError>
    ensures { OnOk result (traced.new.items ≡ traced_by_key traced.old.items) }
{
    stable_sorts_are_one::<Traced>();
    traced.sort_by_key(|t| key_of(&t.event, t.seq))
}
