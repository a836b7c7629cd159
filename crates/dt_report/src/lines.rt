ghost use Rattle.std.specs.Prelude.{◌≡◌, ◌≤◌, ◌++◌, OnOk, length, sum_by, take, vec_len};
ghost use Rattle.dt_text.specs.Line.{decimal_field};
ghost use Rattle.dt_verdict.specs.declared.tallies.Counts.{Counts};
ghost use Rattle.dt_report.specs.Report.{failed_text, verdict_line, total_line, hart_line, hart_lines, is_set, count_of, rules_line};

use dt_record::Letters;
use dt_text::{put_decimal, put_double, put_number};
use dt_verdict::{Counts, Failure, Noted, Verdict};
use std::alloc::AllocError;

/// Appends where and why a check fails, in a line without its end. After want of memory `out` may
/// end in a part of what was to come, behind what was there.
#[tactic(auto, unfolding(crate::specs::Report::failed_text))]
pub fn put_failed(out: &mut Vec<u8>, failure: &Failure) -> Result<(), AllocError>
    ensures put { OnOk result (out.new.items ≡ out.old.items ++ failed_text failure.now) }
    ensures front { take (vec_len out.old) out.new.items ≡ out.old.items }
{
    out.extend_from_slice(b"FAIL")?;
    put_decimal(out, "stamp", failure.key.stamp)?;
    put_decimal(out, "hart", u64::from(failure.key.hart))?;
    put_decimal(out, "seq", u64::from(failure.key.seq))?;
    put_decimal(out, "reason", u64::from(failure.reason.number()))?;
    out.push(b' ')?;
    out.extend_from_slice(failure.reason.name().as_bytes())
}

/// Appends the line of the verdict.
#[tactic(auto, unfolding(crate::specs::Report::verdict_line))]
pub fn put_verdict(out: &mut Vec<u8>, verdict: &Verdict) -> Result<(), AllocError>
    ensures { OnOk result (out.new.items ≡ out.old.items ++ verdict_line verdict.now) }
{
    match verdict {
        Verdict::Pass => out.extend_from_slice(b"PASS\n"),
        Verdict::Fail(failure) => {
            put_failed(out, failure)?;
            put_double(out, "expected", failure.expected)?;
            put_double(out, "found", failure.found)?;
            out.extend_from_slice(b"\n")
        }
    }
}

fn total_records(counts: &[Counts]) -> u64
    requires { length counts.now ≤ 8 }
    ensures { result ≡ sum_by (λ (c : Counts). c.records) counts.now }
{
    counts.iter().map(|c| u64::from(c.records)).sum()
}

fn total_writes(counts: &[Counts]) -> u64
    requires { length counts.now ≤ 8 }
    ensures { result ≡ sum_by (λ (c : Counts). c.writes) counts.now }
{
    counts.iter().map(|c| u64::from(c.writes)).sum()
}

/// Appends the line of all harts.
#[tactic(auto, unfolding(crate::specs::Report::total_line))]
pub fn put_totals(out: &mut Vec<u8>, harts: u8, counts: &[Counts]) -> Result<(), AllocError>
    requires { length counts.now ≤ 8 }
    ensures { OnOk result (out.new.items ≡ out.old.items ++ total_line harts counts.now) }
{
    out.extend_from_slice(b"harts=")?;
    put_number(out, u64::from(harts))?;
    put_decimal(out, "records", total_records(counts))?;
    put_decimal(out, "writes", total_writes(counts))?;
    out.extend_from_slice(b"\n")
}

/// Appends a count behind its name.
fn put_count(out: &mut Vec<u8>, name: &str, count: u64) -> Result<(), AllocError>
    ensures { OnOk result (out.new.items ≡ out.old.items ++ decimal_field name.now count) }
{
    put_decimal(out, name, count)
}

/// Appends the line of one hart.
#[tactic(auto, unfolding(crate::specs::Report::hart_line))]
fn put_hart(out: &mut Vec<u8>, hart: usize, counts: &Counts) -> Result<(), AllocError>
    ensures { OnOk result (out.new.items ≡ out.old.items ++ hart_line hart counts.now) }
{
    out.extend_from_slice(b"hart ")?;
    put_number(out, hart as u64)?;
    put_count(out, "retired", u64::from(counts.retired))?;
    put_count(out, "traps", u64::from(counts.traps))?;
    put_count(out, "loads", u64::from(counts.loads))?;
    put_count(out, "stores", u64::from(counts.stores))?;
    put_count(out, "atomics", u64::from(counts.atomics))?;
    put_count(out, "drains", u64::from(counts.drains))?;
    out.extend_from_slice(b"\n")
}

/// Appends the lines of the harts.
pub fn put_harts(out: &mut Vec<u8>, counts: &[Counts]) -> Result<(), AllocError>
    ensures { OnOk result (out.new.items ≡ out.old.items ++ hart_lines counts.now) }
{
    for (hart, counted) in counts.iter().enumerate() {
        put_hart(out, hart, counted)?;
    }
    Ok(())
}

/// The letters of the rules, in the order of reports.
#[derive(Clone, Copy)]
enum Letter {
    L,
    S,
    P,
    I,
    D,
    C,
    Z,
}

fn has_letter(letters: &Letters, letter: Letter) -> bool
    ensures { result ≡ is_set letter letters.now }
{
    match letter {
        Letter::L => letters.l,
        Letter::S => letters.s,
        Letter::P => letters.p,
        Letter::I => letters.i,
        Letter::D => letters.d,
        Letter::C => letters.c,
        Letter::Z => letters.z,
    }
}

fn letter_count(notes: &[Noted], letter: Letter) -> usize
    ensures { result ≡ count_of letter notes.now }
{
    notes
        .iter()
        .filter(|n| has_letter(&n.letters, letter))
        .count()
}

/// Appends the line that counts the records with each letter.
#[tactic(auto, unfolding(crate::specs::Report::rules_line))]
pub fn put_rules(out: &mut Vec<u8>, notes: &[Noted]) -> Result<(), AllocError>
    ensures { OnOk result (out.new.items ≡ out.old.items ++ rules_line notes.now) }
{
    out.extend_from_slice(b"rules")?;
    put_count(out, "L", letter_count(notes, Letter::L) as u64)?;
    put_count(out, "S", letter_count(notes, Letter::S) as u64)?;
    put_count(out, "P", letter_count(notes, Letter::P) as u64)?;
    put_count(out, "I", letter_count(notes, Letter::I) as u64)?;
    put_count(out, "D", letter_count(notes, Letter::D) as u64)?;
    put_count(out, "C", letter_count(notes, Letter::C) as u64)?;
    put_count(out, "Z", letter_count(notes, Letter::Z) as u64)?;
    out.extend_from_slice(b"\n")
}
