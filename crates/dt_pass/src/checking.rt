ghost use Rattle.std.specs.Prelude.{◌≡◌, ◌≢◌, ◌≤◌, ℕ, List, Option, IfOk, IfErr, IfSome, OnOk, Some, None, Err, length, map};
ghost use Rattle.std.specs.List.{range_with_len};
ghost use Rattle.dt_record.specs.declared.limits.TheConstants.{RECORD_LIMIT};
ghost use Rattle.dt_record.specs.Keys.{records_of};
ghost use Rattle.dt_record.specs.Streams.{IsFresh, Rose};
ghost use Rattle.dt_tallies.specs.Counting.{counts_of};
ghost use Rattle.dt_verdict.specs.declared.answers.Refusal.TheVariants as refusal;
ghost use Rattle.dt_pass.specs.Checked.{IsConclusion, IsCheckOf, IsChecked, limit_of};
ghost use Rattle.dt_pass.specs.Running.{AreJudgeable};
ghost use Rattle.dt_tallies.specs.Naming.{named_notes};
ghost use Rattle.dt_reading.specs.Reading.{AreStreamed, IsRefusedAt, refusal_in, with_header};
ghost use Rattle.dt_reading.specs.Underway.{IsBehindHeader};

use crate::reading::read_behind;
use crate::running::run_all;
use dt_reading::read_header;
use dt_record::{Image, Key, Probes, Record};
use dt_tallies::{count, named};
use dt_verdict::{Checked, HartCounts, Noted, Refusal, Tallies, Verdict, least};
use dt_versions::Moments;
use dt_writes::moments_of;
use std::alloc::{AllocError, Global};

/// Checks the records of a stream that has answered nothing yet against an image. It reads the
/// stream to its end before it judges, and keeps all records. Where the records are refused, the
/// stream has been read up to what the refusal names.
pub fn pass<P: Probes>(alloc: Global, image: &Image, probes: &mut P) -> Result<Checked, Refusal>
    requires { IsFresh (P.progress probes.old) }
    ensures checked { IfOk result (λ checked. IsCheckOf image.now (P.left probes.old) (P.progress probes.new) checked) }
    ensures accepted { OnOk result (IfSome (P.left probes.old) (λ answers. refusal_in answers ≡ None)) }
    ensures refused { IfErr result (λ r. r ≢ refusal.ReadFault → r ≢ refusal.OutOfMemory
        → IfSome (P.left probes.old) (λ answers. refusal_in answers ≡ Some r)) }
    ensures refused_at { IfErr result (λ r. IsRefusedAt (P.progress probes.new) r) }
    ensures fault { result ≡ Err refusal.ReadFault → Rose (P.faults probes.old) (P.faults probes.new) }
    ensures needed { result ≡ Err refusal.ReadFault
        → (bytes : Option (List ℕ)) → P.has_origin probes.old bytes → P.leaves_open probes.new bytes }
    ensures never_falls { P.faults probes.old ≤ P.faults probes.new }
    ensures same_lent { P.lent probes.new ≡ P.lent probes.old }
{
    let header = read_header(probes)?;
    pass_behind(alloc, image, header.harts, header.wide, probes)
}

/// Checks the records of a stream whose header came, and nothing behind it, as `pass` does.
pub fn pass_behind<P: Probes>(
    alloc: Global,
    image: &Image,
    harts: u8,
    wide: bool,
    probes: &mut P,
) -> Result<Checked, Refusal>
    requires { IsBehindHeader harts wide (P.progress probes.old) }
    ensures checked { let told = with_header harts wide (P.left probes.old) in
        IfOk result (λ checked. IsCheckOf image.now told (P.progress probes.new) checked) }
    ensures accepted { let told = with_header harts wide (P.left probes.old) in
        OnOk result (IfSome told (λ answers. refusal_in answers ≡ None)) }
    ensures refused { let told = with_header harts wide (P.left probes.old) in
        IfErr result (λ r. r ≢ refusal.ReadFault → r ≢ refusal.OutOfMemory → IfSome told (λ answers. refusal_in answers ≡ Some r)) }
    ensures refused_at { IfErr result (λ r. IsRefusedAt (P.progress probes.new) r) }
    ensures fault { result ≡ Err refusal.ReadFault → Rose (P.faults probes.old) (P.faults probes.new) }
    ensures needed { result ≡ Err refusal.ReadFault
        → (bytes : Option (List ℕ)) → P.has_origin probes.old bytes → P.leaves_open probes.new bytes }
    ensures never_falls { P.faults probes.old ≤ P.faults probes.new }
    ensures same_lent { P.lent probes.new ≡ P.lent probes.old }
{
    let records = read_behind(alloc, harts, wide, probes)?;
    Ok(check(alloc, image, harts, wide, &records)?)
}

/// Checks the records of a stream that came to its end.
fn check(
    alloc: Global,
    image: &Image,
    harts: u8,
    wide: bool,
    records: &[Record],
) -> Result<Checked, AllocError>
    requires streamed { AreStreamed harts records.now }
    ensures { IfOk result (λ checked. IsChecked image.now wide harts records.now checked) }
{
    let m = moments_of(alloc, image.copy()?, records)?;
    check_over(alloc, &m, harts, wide, records)
}

/// Checks them over the memory of their writes.
fn check_over(
    alloc: Global,
    m: &Moments,
    harts: u8,
    wide: bool,
    records: &[Record],
) -> Result<Checked, AllocError>
    requires streamed { AreStreamed harts records.now }
    requires judgeable { AreJudgeable m.now records.now }
    ensures { IfOk result (λ checked. IsChecked m.now.image wide harts records.now checked) }
{
    let mut notes = Vec::new(alloc);
    let outcomes = run_all(alloc, m, harts, wide, records, &mut notes)?;
    checked(alloc, harts, records, least(&outcomes), notes)
}

/// What the check of a file's records comes to, from the verdict over all harts and from the notes
/// of its allowed records, hart 0's first. Behind the failing record of the verdict notes may be
/// missing. After want of memory the notes are gone.
pub fn checked(
    alloc: Global,
    harts: u8,
    records: &[Record],
    verdict: Verdict,
    notes: Vec<Noted>,
) -> Result<Checked, AllocError>
    requires few_harts { harts ≤ 8 }
    requires few_records { length records.now ≤ RECORD_LIMIT }
    ensures { IfOk result (λ checked. IsConclusion harts records.now verdict notes.items checked) }
{
    let tallies = tallied(alloc, harts, records, limit_of(&verdict), notes)?;
    Ok(Checked {
        verdict,
        harts,
        tallies,
    })
}

/// What a report counts and names, of the records below a limit.
fn tallied(
    alloc: Global,
    harts: u8,
    records: &[Record],
    limit: Option<Key>,
    notes: Vec<Noted>,
) -> Result<Tallies, AllocError>
    requires few_harts { harts ≤ 8 }
    requires few_records { length records.now ≤ RECORD_LIMIT }
    ensures counts { IfOk result (λ tallies. tallies.harts
        ≡ map (λ hart. counts_of limit (records_of hart records.now)) (range_with_len 0 harts)) }
    ensures notes { IfOk result (λ tallies. tallies.notes ≡ named_notes limit notes.items) }
{
    let harts = counted(alloc, harts, records, limit)?;
    let notes = named(notes, limit)?;
    Ok(Tallies { harts, notes })
}

/// The counts of each hart, hart 0 first.
fn counted(
    alloc: Global,
    harts: u8,
    records: &[Record],
    limit: Option<Key>,
) -> Result<HartCounts, AllocError>
    requires few_harts { harts ≤ 8 }
    requires few_records { length records.now ≤ RECORD_LIMIT }
    ensures { IfOk result (λ counts. counts ≡ map (λ hart. counts_of limit (records_of hart records.now)) (range_with_len 0 harts)) }
{
    let mut counts = Vec::new(alloc);
    for hart in 0..harts {
        counts.push(count(records, hart, limit))?;
    }
    Ok(HartCounts::of(counts))
}

/// The key of the failing record, where the verdict has one: below it records are counted and named.
pub fn limit_of(verdict: &Verdict) -> Option<Key>
    ensures { result ≡ limit_of verdict.now }
{
    match verdict {
        Verdict::Pass => None,
        Verdict::Fail(failure) => Some(failure.key),
    }
}
