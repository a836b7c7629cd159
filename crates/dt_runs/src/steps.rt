ghost use Rattle.std.specs.Prelude.{◌≡◌, ◌≤◌, ◌<◌, ◌++◌, IfOk, OnErr, vec_len, vec_capacity};
ghost use Rattle.dt_record.specs.declared.limits.TheConstants.{RECORD_LIMIT};
ghost use Rattle.dt_record.specs.Lawful.{IsLawful};
ghost use Rattle.dt_record.specs.Lent.{record_of};
ghost use Rattle.dt_runs.specs.Noting.{note_of};
ghost use Rattle.dt_runs.specs.Stepping.{IsStep};

use dt_judge::{Hart, Judged, judge_at};
use dt_record::{Key, Letters, RecordAt, Sources};
use dt_tallies::is_named;
use dt_verdict::{Failure, Noted};
use dt_versions::Moments;
use std::alloc::AllocError;

/// Judges a hart's next record. The room for its note comes first, so that nothing is changed where
/// memory is wanting.
pub fn step(
    hart: &mut Hart,
    m: &Moments,
    event: &RecordAt<'_>,
    notes: &mut Vec<Noted>,
) -> Result<Option<Failure>, AllocError>
    requires lawful { IsLawful (record_of event.now) }
    requires its { event.now.hart ≡ hart.old.arch.hart }
    requires in_time { hart.old.stamp ≤ event.now.stamp }
    requires room { hart.old.seq < RECORD_LIMIT }
    ensures step { IfOk result (λ failure. IsStep hart.old hart.new m.now (record_of event.now) notes.old.items notes.new.items failure) }
    ensures same_hart { OnErr result (hart.new ≡ hart.old) }
    ensures same_notes { OnErr result (notes.new.items ≡ notes.old.items) }
{
    notes.reserve(1)?;
    let key = Key {
        stamp: event.stamp,
        hart: event.hart,
        seq: hart.seq(),
    };
    match judge_at(hart, m, event) {
        Judged::Fine { letters, sources } => {
            note(notes, key, letters, sources);
            Ok(None)
        }
        Judged::Fail {
            reason,
            expected,
            found,
        } => Ok(Some(Failure {
            key,
            reason,
            expected,
            found,
        })),
        Judged::OutOfMemory => Err(AllocError),
    }
}

/// Notes an allowed record, where a report names it.
fn note(notes: &mut Vec<Noted>, key: Key, letters: Letters, sources: Sources)
    requires { vec_len notes.old < vec_capacity notes.old }
    ensures { notes.new.items ≡ notes.old.items ++ note_of key (record { letters = letters; sources = sources }) }
{
    if is_named(&letters, &sources) {
        notes.push_reserved(Noted {
            key,
            letters,
            sources,
        });
    }
}
