ghost use Rattle.std.specs.Prelude.{◌≡◌, ◌≢◌, ◌<◌, ◌≤◌, ◌⊎◌, ◌++◌, ℕ, List, [], true, false, Option, None, Some, IfSome, OnErr, OnOk, length};
ghost use Rattle.dt_record.specs.Spelling.{end_bytes};
ghost use Rattle.dt_record.specs.Streams.{Continues, Rose};
ghost use Rattle.dt_probe_file.specs.Asking.{LeaveOpen, HadToRead};
ghost use Rattle.dt_probe_file.specs.declared.fronts.Front.TheVariants as fronts;
ghost use Rattle.dt_probe_file.specs.Fronts.{IsSound, IsFront, reading_of};
ghost use Rattle.dt_probe_file.specs.Origins.{KeepsOrigin};
ghost use Rattle.dt_probe_file.specs.Parts.{ReadsOn, whole};
ghost use Rattle.dt_probe_file.specs.Progress.{ended_by, progress_of};
ghost use Rattle.dt_probe_file.specs.Left.{Takes};

use crate::finding::{Found, Heard, find, hear};
use crate::fronts::END_LEN;
use crate::headers::HEADER_LEN;
use crate::holding::Held;
use crate::reading::{Opened, advanced, limit_number, open, too_many};
use dt_record::{Next, Record};
use dt_source::{Failed, Source};

/// An answer, and the file after it, once its header has come.
#[derive(Clone, Copy, Debug)]
pub(crate) struct Step {
    pub(crate) answer: Next,
    pub(crate) opened: Option<Opened>,
}

/// The answer to a record, whose spelling is so many of the held bytes.
fn step_over(held: &mut Held, opened: &Opened, event: &Record, len: usize) -> Step
    requires sound { IsSound opened.now }
    requires front { IsFront (reading_of opened.now) held.old (fronts.Event event.now len) }
    ensures told { (rest : List ℕ)
        → Takes (Some opened.now) (Some (held.old ++ rest)) result.answer result.opened (Some (held.new ++ rest)) }
    ensures step { Continues (progress_of (Some opened.now) None) result.answer (progress_of result.opened (ended_by result.answer)) }
    ensures keeps { (left : Option (List ℕ))
        → KeepsOrigin (Some opened.now) held.old left result.opened (ended_by result.answer) held.new left }
    ensures sound { IfSome result.opened IsSound }
    ensures no_fault { result.answer ≢ Next.ReadFault }
    ensures no_want { result.answer ≢ Next.OutOfMemory }
{
    match too_many(opened, event) {
        Some(what) => {
            let number = limit_number(what);
            Step {
                answer: Next::Limit { what, number },
                opened: Some(*opened),
            }
        }
        None => {
            held.take_away(len);
            let after = advanced(opened, event, len);
            Step {
                answer: Next::Event(*event),
                opened: Some(after),
            }
        }
    }
}

/// Whether more bytes come than were answered: a read is made only where none are held.
fn is_more<S: Source>(source: &mut S, held: &mut Held) -> Result<bool, Failed>
    ensures whole { whole held.new (S.left source.new) ≡ whole held.old (S.left source.old) }
    ensures reads { ReadsOn held.old (S.left source.old) held.new (S.left source.new) }
    ensures more { result ≡ Ok true → 0 < length held.new }
    ensures none { result ≡ Ok false → (held.new ≡ []) × IfSome (S.left source.new) (λ rest. rest ≡ []) }
    ensures quiet { OnOk result (S.faults source.new ≡ S.faults source.old) }
    ensures fault { OnErr result (Rose (S.faults source.old) (S.faults source.new)) }
    ensures needed { OnErr result ((held.old ≡ []) × (S.left source.new ≡ S.left source.old)) }
    ensures idle { (source.new ≡ source.old) ⊎ (held.old ≡ []) }
    ensures never_falls { S.faults source.old ≤ S.faults source.new }
    ensures same_lent { S.lent source.new ≡ S.lent source.old }
{
    if held.bytes().is_empty() {
        held.read(source)
    } else {
        Ok(true)
    }
}

/// The answer to an end, which nothing may follow.
fn step_end<S: Source>(source: &mut S, held: &mut Held, opened: &Opened) -> Step
    requires sound { IsSound opened.now }
    requires front { IsFront (reading_of opened.now) held.old fronts.End }
    ensures told { Takes (Some opened.now) (whole held.old (S.left source.old)) result.answer
        result.opened (whole held.new (S.left source.new)) }
    ensures keeps { KeepsOrigin (Some opened.now) held.old (S.left source.old)
        result.opened (ended_by result.answer) held.new (S.left source.new) }
    ensures step { Continues (progress_of (Some opened.now) None) result.answer (progress_of result.opened (ended_by result.answer)) }
    ensures sound { IfSome result.opened IsSound }
    ensures quiet { result.answer ≢ Next.ReadFault → S.faults source.new ≡ S.faults source.old }
    ensures fault { result.answer ≡ Next.ReadFault → Rose (S.faults source.old) (S.faults source.new) }
    ensures needed { result.answer ≡ Next.ReadFault
        → (held.old ≡ end_bytes opened.now.events) × (S.left source.new ≡ S.left source.old) }
    ensures idle { (source.new ≡ source.old) ⊎ (held.old ≡ end_bytes opened.now.events) }
    ensures no_want { result.answer ≢ Next.OutOfMemory }
    ensures never_falls { S.faults source.old ≤ S.faults source.new }
    ensures same_lent { S.lent source.new ≡ S.lent source.old }
{
    held.take_away(END_LEN);
    match is_more(source, held) {
        Ok(true) => Step {
            answer: Next::Malformed {
                offset: opened.at + END_LEN as u64,
            },
            opened: Some(*opened),
        },
        Ok(false) => Step {
            answer: Next::End {
                count: opened.events,
            },
            opened: Some(*opened),
        },
        Err(Failed) => Step {
            answer: Next::ReadFault,
            opened: Some(*opened),
        },
    }
}

/// The next answer behind the header.
pub(crate) fn step_behind<S: Source>(source: &mut S, held: &mut Held, opened: &Opened) -> Step
    requires { IsSound opened.now }
    ensures told { Takes (Some opened.now) (whole held.old (S.left source.old)) result.answer
        result.opened (whole held.new (S.left source.new)) }
    ensures keeps { KeepsOrigin (Some opened.now) held.old (S.left source.old)
        result.opened (ended_by result.answer) held.new (S.left source.new) }
    ensures step { Continues (progress_of (Some opened.now) None) result.answer (progress_of result.opened (ended_by result.answer)) }
    ensures sound { IfSome result.opened IsSound }
    ensures quiet { result.answer ≢ Next.ReadFault → S.faults source.new ≡ S.faults source.old }
    ensures fault { result.answer ≡ Next.ReadFault → Rose (S.faults source.old) (S.faults source.new) }
    ensures needed { result.answer ≡ Next.ReadFault
        → HadToRead (Some opened.now) held.old (S.left source.old) (S.left source.new) }
    ensures idle { (source.new ≡ source.old) ⊎ LeaveOpen (Some opened.now) held.old }
    ensures no_want { result.answer ≢ Next.OutOfMemory }
    ensures never_falls { S.faults source.old ≤ S.faults source.new }
    ensures same_lent { S.lent source.new ≡ S.lent source.old }
{
    match find(source, held, opened) {
        Found::Event { event, len } => step_over(held, opened, &event, len),
        Found::End => step_end(source, held, opened),
        Found::Wrong => Step {
            answer: Next::Malformed { offset: opened.at },
            opened: Some(*opened),
        },
        Found::Failed => Step {
            answer: Next::ReadFault,
            opened: Some(*opened),
        },
    }
}

/// The first answer of a file.
pub(crate) fn step_header<S: Source>(source: &mut S, held: &mut Held) -> Step
    ensures told { Takes None (whole held.old (S.left source.old)) result.answer result.opened (whole held.new (S.left source.new)) }
    ensures keeps { KeepsOrigin None held.old (S.left source.old) result.opened (ended_by result.answer) held.new (S.left source.new) }
    ensures step { Continues (progress_of None None) result.answer (progress_of result.opened (ended_by result.answer)) }
    ensures sound { IfSome result.opened IsSound }
    ensures quiet { result.answer ≢ Next.ReadFault → S.faults source.new ≡ S.faults source.old }
    ensures fault { result.answer ≡ Next.ReadFault → Rose (S.faults source.old) (S.faults source.new) }
    ensures needed { result.answer ≡ Next.ReadFault → HadToRead None held.old (S.left source.old) (S.left source.new) }
    ensures idle { (source.new ≡ source.old) ⊎ LeaveOpen None held.old }
    ensures no_want { result.answer ≢ Next.OutOfMemory }
    ensures never_falls { S.faults source.old ≤ S.faults source.new }
    ensures same_lent { S.lent source.new ≡ S.lent source.old }
{
    match hear(source, held) {
        Heard::Whole {
            version,
            harts,
            wide,
        } => {
            held.take_away(HEADER_LEN);
            let opened = open(version, harts, wide);
            Step {
                answer: Next::Header { harts, wide },
                opened: Some(opened),
            }
        }
        Heard::Wrong { field } => Step {
            answer: Next::Malformed {
                offset: field as u64,
            },
            opened: None,
        },
        Heard::Failed => Step {
            answer: Next::ReadFault,
            opened: None,
        },
    }
}
