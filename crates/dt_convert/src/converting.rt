ghost use Rattle.std.specs.Prelude.{◌≡◌, ◌≢◌, ◌≤◌, ◌⊎◌, ℕ, List, Option, IfErr, IfOk, IfSome, IsSomeAnd, OnOk, Some};
ghost use Rattle.dt_source.specs.Faults.{Rose};
ghost use Rattle.dt_source.specs.Known.{Appends};
ghost use Rattle.dt_record.specs.Streams.{IsFresh};
ghost use Rattle.dt_dump.specs.Dump.{AppendsPart, stream_status, last_status, memory_line, read_fault_line};
ghost use Rattle.dt_convert.specs.Convert.{MayConvert, converted, version_of};
ghost use Rattle.dt_convert.specs.Reading.{IsFileOf, StopsAt};

use crate::pieces::{put_end, put_header, put_record};
use crate::versions::FileVersion;
use dt_dump::{WRITE_FAULT, put_last};
use dt_record::{Next, Probes};
use dt_source::{Failed, Sink, write_all};
use std::alloc::Global;

/// The bytes of the file of a stream that comes to its end; else the answer that it stopped at.
/// Where memory was refused, it gives that in its place.
fn file_of<P: Probes>(alloc: Global, version: FileVersion, probes: &mut P) -> Result<Vec<u8>, Next>
    requires { IsFresh (P.progress probes.old) }
    ensures file { IfOk result (λ bytes. IfSome (P.left probes.old)
        (λ answers. IsFileOf (version_of version) answers bytes.items)) }
    ensures file_ended { OnOk result ((count : ℕ) × ((P.progress probes.new).ended ≡ Some (Next.End count))) }
    ensures stopped { IfErr result (λ last. IfSome (P.left probes.old) (λ answers. StopsAt answers last)) }
    ensures stopped_ended { IfErr result (λ last. last ≢ Next.OutOfMemory → (P.progress probes.new).ended ≡ Some last) }
    ensures read_fault { IfErr result (λ last. last ≡ Next.ReadFault → Rose (P.faults probes.old) (P.faults probes.new)) }
    ensures needed { IfErr result (λ last. last ≡ Next.ReadFault
        → (bytes : Option (List ℕ)) → P.has_origin probes.old bytes → P.leaves_open probes.new bytes) }
    ensures never_falls { P.faults probes.old ≤ P.faults probes.new }
    ensures same_lent { P.lent probes.new ≡ P.lent probes.old }
{
    let mut bytes = Vec::new(alloc);
    let mut stamps = [0; 8];
    loop {
        match probes.next() {
            Next::Header { harts, wide } => {
                match put_header(version, harts, wide, &mut bytes) {
                    Ok(()) => {}
                    Err(_) => return Err(Next::OutOfMemory),
                }
            }
            Next::Event(event) => match put_record(version, &event, &mut stamps, &mut bytes) {
                Ok(()) => {}
                Err(_) => return Err(Next::OutOfMemory),
            },
            Next::End { count } => match put_end(count, &mut bytes) {
                Ok(()) => return Ok(bytes),
                Err(_) => return Err(Next::OutOfMemory),
            },
            last => return Err(last),
        }
    }
}

/// Writes a whole file, and gives the exit status.
fn put_file<O: Sink>(bytes: &[u8], out: &mut O) -> u8
    ensures whole { result ≢ 6 → (result ≡ 0) × Appends (O.written out.old) bytes.now (O.written out.new) }
    ensures write_fault { result ≡ 6 → Rose (O.faults out.old) (O.faults out.new)
        × AppendsPart (O.written out.old) bytes.now (O.written out.new) }
    ensures never_falls { O.faults out.old ≤ O.faults out.new }
{
    match write_all(out, bytes) {
        Ok(()) => 0,
        Err(Failed) => WRITE_FAULT,
    }
}

/// Reads a stream that has answered nothing yet to its end, and then writes the file with the same
/// header and records in the version asked for. A stream that ends otherwise has the line of that
/// answer alone. It gives the exit status:
///
/// 0 the file was written, 4 the stream is malformed, 5 a read failed, 6 a write failed, 7 there was
/// no memory, 8 there is too much of something.
///
/// It keeps the bytes of the whole file.
pub fn convert_probes<P: Probes, O: Sink>(
    alloc: Global,
    to: FileVersion,
    probes: &mut P,
    out: &mut O,
) -> u8
    requires { IsFresh (P.progress probes.old) }
    // Whatever failed: another status than those of a fault or of want of memory comes with the
    // bytes that all answers have.
    ensures whole { result ≢ 5 → result ≢ 6 → result ≢ 7 → IfSome (P.left probes.old) (λ answers.
        (result ≡ stream_status answers) × Appends (O.written out.old) (converted (version_of to) answers) (O.written out.new)) }

    // Where nothing failed and memory was not refused, those bytes come.
    ensures calm { (Rose (P.faults probes.old) (P.faults probes.new) → ⊥)
        → (Rose (O.faults out.old) (O.faults out.new) → ⊥) → result ≢ 7 → IfSome (P.left probes.old) (λ answers.
        (result ≡ stream_status answers) × Appends (O.written out.old) (converted (version_of to) answers) (O.written out.new)) }

    // The stream is read to its end, also where it does not tell its answers.
    ensures ended { result ≢ 6 → result ≢ 7
        → IsSomeAnd (P.progress probes.new).ended (λ last. result ≡ last_status last) }

    ensures read_fault { result ≡ 5 → Rose (P.faults probes.old) (P.faults probes.new) }
    ensures needed { result ≡ 5 → (bytes : Option (List ℕ)) → P.has_origin probes.old bytes → P.leaves_open probes.new bytes }
    ensures read_fault_text { result ≡ 5 → Appends (O.written out.old) read_fault_line (O.written out.new) }
    ensures memory { result ≡ 7 → Appends (O.written out.old) memory_line (O.written out.new) }
    ensures write_fault { result ≡ 6 → Rose (O.faults out.old) (O.faults out.new) }

    // What is written then is a front of what may come.
    ensures write_fault_front { result ≡ 6 → (text : List ℕ)
        × MayConvert (version_of to) (P.left probes.old) (Rose (P.faults probes.old) (P.faults probes.new)) text
        × AppendsPart (O.written out.old) text (O.written out.new) }

    ensures probes_never_falls { P.faults probes.old ≤ P.faults probes.new }
    ensures out_never_falls { O.faults out.old ≤ O.faults out.new }
    ensures same_lent { P.lent probes.new ≡ P.lent probes.old }
{
    match file_of(alloc, to, probes) {
        Ok(bytes) => put_file(&bytes, out),
        Err(last) => put_last(alloc, &last, out),
    }
}
