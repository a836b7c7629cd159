ghost use Rattle.std.specs.Prelude.{◌≡◌, ◌≢◌, ◌<◌, ◌≤◌, ◌+◌, ◌⊎◌, Err, IfOk, OnErr, OnOk, slice_index, slice_set};
ghost use Rattle.std.specs.String.{string_bytes};
ghost use Rattle.dt_record.specs.declared.limits.TheConstants.{RECORD_LIMIT};
ghost use Rattle.dt_source.specs.Faults.{Rose};
ghost use Rattle.dt_source.specs.Known.{Appends};
ghost use Rattle.dt_text.specs.Line.{line_text};
ghost use Rattle.dt_dump.specs.Dump.{AppendsPart, last_line, last_status, memory_line};

use dt_record::{Next, Record, What};
use dt_source::{Failed, Sink, write_all};
use dt_text::line;
use std::alloc::{AllocError, Global};

/// The exit status where a write failed.
pub const WRITE_FAULT: u8 = 6;

/// The exit status where memory was refused.
const NO_MEMORY: u8 = 7;

const READ_FAULT_LINE: &str = "READ FAULT probes\n";

const MEMORY_LINE: &str = "OUT OF MEMORY\n";

/// Why the line of a record was not written whole.
#[derive(Clone, Copy, Debug, PartialEq, Eq)]
pub enum Stop {
    OutOfMemory,
    WriteFault,
}

/// Writes the line of a record. `seq` is its number among its hart's records.
fn put_line<O: Sink>(alloc: Global, event: &Record, seq: u32, out: &mut O) -> Result<(), Stop>
    ensures ok { OnOk result (Appends (O.written out.old) (line_text seq event.now) (O.written out.new)) }
    ensures memory { result ≡ Err Stop.OutOfMemory → O.written out.new ≡ O.written out.old }
    ensures write_fault { result ≡ Err Stop.WriteFault → Rose (O.faults out.old) (O.faults out.new)
        × AppendsPart (O.written out.old) (line_text seq event.now) (O.written out.new) }
    ensures never_falls { O.faults out.old ≤ O.faults out.new }
{
    let Ok(printed) = line(alloc, event, seq) else {
        return Err(Stop::OutOfMemory);
    };
    match write_all(out, printed.bytes()) {
        Ok(()) => Ok(()),
        Err(Failed) => Err(Stop::WriteFault),
    }
}

/// Writes the line of the next record. `counts` has the number of records of each hart so far.
pub fn put_record<O: Sink>(
    alloc: Global,
    event: &Record,
    counts: &mut [u32; 8],
    out: &mut O,
) -> Result<(), Stop>
    requires hart { event.now.hart < 8 }
    requires few { slice_index counts.old event.now.hart < RECORD_LIMIT }
    ensures ok { OnOk result (Appends (O.written out.old)
        (line_text (slice_index counts.old event.now.hart) event.now) (O.written out.new)) }
    ensures counted { OnOk result (counts.new
        ≡ slice_set counts.old event.now.hart (slice_index counts.old event.now.hart + 1)) }
    ensures memory { result ≡ Err Stop.OutOfMemory → O.written out.new ≡ O.written out.old }
    ensures write_fault { result ≡ Err Stop.WriteFault → Rose (O.faults out.old) (O.faults out.new)
        × AppendsPart (O.written out.old) (line_text (slice_index counts.old event.now.hart) event.now) (O.written out.new) }
    ensures kept { OnErr result (counts.new ≡ counts.old) }
    ensures never_falls { O.faults out.old ≤ O.faults out.new }
{
    let hart = usize::from(event.hart);
    put_line(alloc, event, counts[hart], out)?;
    counts[hart] += 1;
    Ok(())
}

/// Writes a text that the program ends with, and gives the exit status.
fn put_text<O: Sink>(out: &mut O, text: &str, status: u8) -> u8
    requires { status ≢ 6 }
    ensures whole { result ≢ 6 → (result ≡ status) × Appends (O.written out.old) text.now (O.written out.new) }
    ensures write_fault { result ≡ 6 → Rose (O.faults out.old) (O.faults out.new)
        × AppendsPart (O.written out.old) text.now (O.written out.new) }
    ensures never_falls { O.faults out.old ≤ O.faults out.new }
{
    match write_all(out, text.as_bytes()) {
        Ok(()) => status,
        Err(Failed) => WRITE_FAULT,
    }
}

/// The exit status of a stream that ends with this answer.
fn status_of(last: &Next) -> u8
    ensures { result ≡ last_status last.now }
{
    match last {
        Next::Header { .. } | Next::Event(_) | Next::End { .. } => 0,
        Next::Malformed { .. } => 4,
        Next::ReadFault => 5,
        Next::OutOfMemory => NO_MEMORY,
        Next::Limit { .. } => 8,
    }
}

/// The line of an answer that ends a stream.
fn text_of(alloc: Global, last: &Next) -> Result<String, AllocError>
    ensures { IfOk result (λ text. string_bytes text ≡ last_line last.now) }
{
    match last {
        Next::Header { .. } | Next::Event(_) => Ok(String::new(alloc)),
        Next::End { count } => format!(in alloc; "END count={count}\n"),
        Next::Malformed { offset } => format!(in alloc; "MALFORMED offset={offset}\n"),
        Next::Limit { what, number } => match what {
            What::Records => format!(in alloc; "LIMIT records={number}\n"),
            What::Writes => format!(in alloc; "LIMIT writes={number}\n"),
        },
        Next::ReadFault => String::from_str(alloc, READ_FAULT_LINE),
        Next::OutOfMemory => String::from_str(alloc, MEMORY_LINE),
    }
}

/// Writes the line of an answer that ends a stream, and gives the exit status.
pub fn put_last<O: Sink>(alloc: Global, last: &Next, out: &mut O) -> u8
    ensures whole { result ≢ 6 → result ≢ 7 → (result ≡ last_status last.now)
        × Appends (O.written out.old) (last_line last.now) (O.written out.new) }
    ensures memory { result ≡ 7 → Appends (O.written out.old) memory_line (O.written out.new) }
    ensures write_fault { result ≡ 6 → Rose (O.faults out.old) (O.faults out.new) }
    ensures write_fault_front { result ≡ 6
        → AppendsPart (O.written out.old) (last_line last.now) (O.written out.new)
        ⊎ AppendsPart (O.written out.old) memory_line (O.written out.new) }
    ensures never_falls { O.faults out.old ≤ O.faults out.new }
{
    match text_of(alloc, last) {
        Ok(text) => put_text(out, text.as_str(), status_of(last)),
        Err(_) => put_text(out, MEMORY_LINE, NO_MEMORY),
    }
}
