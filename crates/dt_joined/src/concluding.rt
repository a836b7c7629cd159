//! The check that the ends of all harts come to.
ghost use Rattle.std.specs.Prelude.{◌≡◌, ◌≤◌, ℕ, Bool, List, [], Any, Contains, IfOk, map};
ghost use Rattle.std.specs.List.{range_with_len};
ghost use Rattle.dt_record.specs.declared.records.Record.{Record};
ghost use Rattle.dt_record.specs.Keys.{records_of};
ghost use Rattle.dt_record.specs.Writes.{writes_of};
ghost use Rattle.dt_versions.specs.History.{history};
ghost use Rattle.dt_writes.specs.FileRecords.{AreFileRecords};
ghost use Rattle.dt_tallies.specs.Counting.{counts_of};
ghost use Rattle.dt_pass.specs.Checked.{IsChecked};
ghost use Rattle.dt_pass.specs.Running.{AreRunsOf};
ghost use Rattle.dt_joined.specs.Ends.{HaveAllHarts, AreFew, AreEndsOf};

use crate::laws::{concluded_is_checked, judged_harts_have_runs, own_records_are_counted};
use dt_lane::HartEnd;
use dt_pass::limit_of;
use dt_record::Key;
use dt_tallies::{count, named};
use dt_verdict::{Checked, HartCounts, Noted, Outcome, Tallies, least};
use std::alloc::{AllocError, Global};

/// What the check of a file comes to, from what came of each of its harts. An `Err` is want of memory.
pub fn conclude(alloc: Global, harts: u8, ends: &[HartEnd]) -> Result<Checked, AllocError>
    requires few_harts { harts ≤ 8 }
    requires all_harts { HaveAllHarts harts ends.now }
    requires few_records { AreFew ends.now }
    ensures { IfOk result (λ checked. (image : List ℕ) (wide : Bool) (file : List Record) → AreFileRecords file
        → AreEndsOf image wide file ends.now → IsChecked image wide harts file checked) }
{
    concluded_is_checked();
    let mut notes = Vec::new(alloc);
    let outcomes = gathered(alloc, harts, ends, &mut notes)?;
    let verdict = least(&outcomes);
    let limit = limit_of(&verdict);
    let counts = counted(alloc, harts, ends, limit)?;
    let notes = named(notes, limit)?;
    Ok(Checked {
        verdict,
        harts,
        tallies: Tallies {
            harts: counts,
            notes,
        },
    })
}

/// The outcomes and the notes of all harts, hart 0's first.
fn gathered(
    alloc: Global,
    harts: u8,
    ends: &[HartEnd],
    notes: &mut Vec<Noted>,
) -> Result<Vec<Outcome>, AllocError>
    requires all_harts { HaveAllHarts harts ends.now }
    requires no_notes { notes.old.items ≡ [] }
    ensures { IfOk result (λ outcomes. (image : List ℕ) (wide : Bool) (file : List Record) → AreFileRecords file
        → AreEndsOf image wide file ends.now
        → AreRunsOf (history image (writes_of file)) wide harts file outcomes.items notes.new.items) }
{
    judged_harts_have_runs();
    let mut outcomes = Vec::new(alloc);
    for hart in 0..harts {
        let end = end_of(ends, hart);
        outcomes.push(end.outcome)?;
        notes.extend_from_slice(&end.notes)?;
    }
    Ok(outcomes)
}

/// The end of a hart.
fn end_of(ends: &[HartEnd], hart: u8) -> &HartEnd
    requires { Any (λ e. e.hart ≡ hart) ends.now }
    ensures its { result.now.hart ≡ hart }
    ensures one { Contains ends.now result.now }
{
    for end in ends {
        if end.hart == hart {
            return end;
        }
    }
    unreachable!()
}

/// The counts of each hart's records below a limit, hart 0 first.
fn counted(
    alloc: Global,
    harts: u8,
    ends: &[HartEnd],
    limit: Option<Key>,
) -> Result<HartCounts, AllocError>
    requires few_harts { harts ≤ 8 }
    requires all_harts { HaveAllHarts harts ends.now }
    requires few_records { AreFew ends.now }
    ensures { IfOk result (λ counts. (image : List ℕ) (wide : Bool) (file : List Record) → AreEndsOf image wide file ends.now
        → counts ≡ map (λ hart. counts_of limit (records_of hart file)) (range_with_len 0 harts)) }
{
    own_records_are_counted();
    let mut counts = Vec::new(alloc);
    for hart in 0..harts {
        let end = end_of(ends, hart);
        counts.push(count(&end.taken, hart, limit))?;
    }
    Ok(HartCounts::of(counts))
}
