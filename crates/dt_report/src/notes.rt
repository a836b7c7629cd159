ghost use Rattle.std.specs.Prelude.{◌≡◌, ◌<◌, ◌≤◌, ◌∷◌, ◌++◌, OnOk, IfOk, length, take, drop};
ghost use Rattle.std.specs.List.{prefix_len, flat_map};
ghost use Rattle.dt_report.specs.Runs.{Run, same_origin, run, run_text, runs_from, runs_text, origin_text, sources_text};
ghost use Rattle.dt_report.specs.Report.{letter_text, letters_text, note_line};

use dt_record::{Letters, Origin, Sources};
use dt_text::{put_key, put_number};
use dt_verdict::Noted;
use std::alloc::AllocError;

fn put_letter(out: &mut Vec<u8>, is_set: bool, letter: &str) -> Result<(), AllocError>
    ensures { OnOk result (out.new.items ≡ out.old.items ++ letter_text is_set letter.now) }
{
    if is_set {
        out.extend_from_slice(letter.as_bytes())?;
    }
    Ok(())
}

/// Appends the letters that are set, in the order of reports, or a dash.
fn put_letters(out: &mut Vec<u8>, letters: &Letters) -> Result<(), AllocError>
    ensures { OnOk result (out.new.items ≡ out.old.items ++ letters_text letters.now) }
{
    if !letters.has_any() {
        return out.extend_from_slice(b"-");
    }
    put_letter(out, letters.l, "L")?;
    put_letter(out, letters.s, "S")?;
    put_letter(out, letters.p, "P")?;
    put_letter(out, letters.i, "I")?;
    put_letter(out, letters.d, "D")?;
    put_letter(out, letters.c, "C")?;
    put_letter(out, letters.z, "Z")
}

fn put_origin(out: &mut Vec<u8>, origin: &Origin) -> Result<(), AllocError>
    ensures { OnOk result (out.new.items ≡ out.old.items ++ origin_text origin.now) }
{
    match origin {
        Origin::Image => out.extend_from_slice(b"image"),
        Origin::Write(key) => put_key(out, *key),
        Origin::Store(seq) => {
            out.extend_from_slice(b"store.")?;
            put_number(out, u64::from(*seq))
        }
    }
}

/// Appends one run, from its first byte to its last.
#[tactic(auto, unfolding(crate::specs::Runs::run_text))]
fn put_run(out: &mut Vec<u8>, first: usize, last: usize, origin: &Origin) -> Result<(), AllocError>
    ensures { OnOk result (out.new.items ≡ out.old.items ++ run_text (run first last origin.now)) }
{
    put_number(out, first as u64)?;
    out.push(b'-')?;
    put_number(out, last as u64)?;
    out.push(b'=')?;
    put_origin(out, origin)
}

fn is_same(a: &Origin, b: &Origin) -> bool
    ensures { result ≡ same_origin a.now b.now }
{
    a == b
}

/// How many of the bytes from the front on come from this place.
fn same_len(origin: &Origin, bytes: &[Origin]) -> usize
    ensures value { result ≡ prefix_len (same_origin origin.now) bytes.now }
    ensures within { result ≤ length bytes.now }
{
    bytes.iter().take_while(|o| is_same(origin, o)).count()
}

/// Appends the run that begins at a byte, and gives the place behind it.
fn put_run_at(out: &mut Vec<u8>, bytes: &[Origin], first: usize) -> Result<usize, AllocError>
    requires { first < length bytes.now }
    ensures next { IfOk result (λ next. (first < next) × (next ≤ length bytes.now)) }
    ensures text { IfOk result (λ next. (r : Run)
        × (runs_from first (drop first bytes.now) ≡ r ∷ runs_from next (drop next bytes.now))
        × (out.new.items ≡ out.old.items ++ run_text r)) }
{
    let origin = &bytes[first];
    let last = first + same_len(origin, &bytes[first + 1..]);
    put_run(out, first, last, origin)?;
    Ok(last + 1)
}

/// Appends the runs of some bytes, joined by commas.
fn put_runs(out: &mut Vec<u8>, bytes: &[Origin]) -> Result<(), AllocError>
    ensures { OnOk result (out.new.items ≡ out.old.items ++ runs_text (runs_from 0 bytes.now)) }
{
    if bytes.is_empty() {
        return Ok(());
    }
    let mut next = put_run_at(out, bytes, 0)?;
    while next < bytes.len() {
        out.push(b',')?;
        next = put_run_at(out, bytes, next)?;
    }
    Ok(())
}

/// The first bytes, or all where there are not so many.
#[tactic(auto, using(std::proofs::lemmas::List::take_min))]
fn front(bytes: &[Origin], count: usize) -> &[Origin]
    ensures { result.now ≡ take count bytes.now }
{
    &bytes[..count.min(bytes.len())]
}

/// Appends where the bytes come from, or a dash where none were read.
fn put_sources(out: &mut Vec<u8>, sources: &Sources) -> Result<(), AllocError>
    ensures { OnOk result (out.new.items ≡ out.old.items ++ sources_text sources.now) }
{
    if sources.count == 0 {
        return out.extend_from_slice(b"-");
    }
    put_runs(out, front(&sources.from, usize::from(sources.count)))
}

/// Appends the line of a record that the notes name.
#[tactic(auto, unfolding(crate::specs::Report::note_line))]
fn put_note(out: &mut Vec<u8>, noted: &Noted) -> Result<(), AllocError>
    ensures { OnOk result (out.new.items ≡ out.old.items ++ note_line noted.now) }
{
    out.extend_from_slice(b"note ")?;
    put_key(out, noted.key)?;
    out.extend_from_slice(b" rules=")?;
    put_letters(out, &noted.letters)?;
    out.extend_from_slice(b" from=")?;
    put_sources(out, &noted.sources)?;
    out.extend_from_slice(b"\n")
}

/// Appends the lines of the records that the notes name.
pub fn put_notes(out: &mut Vec<u8>, notes: &[Noted]) -> Result<(), AllocError>
    ensures { OnOk result (out.new.items ≡ out.old.items ++ flat_map note_line notes.now) }
{
    for noted in notes {
        put_note(out, noted)?;
    }
    Ok(())
}
