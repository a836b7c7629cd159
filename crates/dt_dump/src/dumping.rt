ghost use Rattle.std.specs.Prelude.{◌≡◌, ◌≢◌, ◌≤◌, ◌⊎◌, ℕ, List, Option, IfOk, IfSome, IsSomeAnd, OnErr, Some};
ghost use Rattle.dt_source.specs.Faults.{Rose};
ghost use Rattle.dt_source.specs.Known.{Appends};
ghost use Rattle.dt_record.specs.declared.records.Record.{Record};
ghost use Rattle.dt_record.specs.Streams.{IsFresh};
ghost use Rattle.dt_dump.specs.Dump.{AppendsPart, IsCutShort, MayDump, stream_status, dump_text, last_status, memory_line, read_fault_line, record_lines};
ghost use Rattle.dt_dump.specs.Last.{CameTo};

use crate::lines::{Stop, WRITE_FAULT, put_last, put_record};
use dt_record::{Next, Probes};
use dt_source::{Failed, Sink};
use std::alloc::Global;

/// Writes the lines of the records of a stream up to the first answer that is no record, and gives
/// that answer. Where memory was refused, it gives that in its place.
fn put_records<P: Probes, O: Sink>(
    alloc: Global,
    probes: &mut P,
    out: &mut O,
) -> Result<Next, Failed>
    requires { IsFresh (P.progress probes.old) }
    ensures came { IfOk result (λ last. (given : List Record)
        × Appends (O.written out.old) (record_lines given) (O.written out.new)
        × IfSome (P.left probes.old) (λ answers. CameTo answers given last)) }
    ensures ended { IfOk result (λ last. last ≢ Next.OutOfMemory → (P.progress probes.new).ended ≡ Some last) }
    ensures read_fault { IfOk result (λ last. last ≡ Next.ReadFault → Rose (P.faults probes.old) (P.faults probes.new)) }
    ensures needed { IfOk result (λ last. last ≡ Next.ReadFault
        → (bytes : Option (List ℕ)) → P.has_origin probes.old bytes → P.leaves_open probes.new bytes) }
    ensures write_fault { OnErr result (Rose (O.faults out.old) (O.faults out.new)) }
    ensures write_fault_front { OnErr result ((text : List ℕ)
        × IfSome (P.left probes.old) (λ answers. text ≡ dump_text answers)
        × AppendsPart (O.written out.old) text (O.written out.new)) }
    ensures probes_never_falls { P.faults probes.old ≤ P.faults probes.new }
    ensures out_never_falls { O.faults out.old ≤ O.faults out.new }
    ensures same_lent { P.lent probes.new ≡ P.lent probes.old }
{
    let mut counts = [0; 8];
    loop {
        match probes.next() {
            Next::Header { .. } => {}
            Next::Event(event) => match put_record(alloc, &event, &mut counts, out) {
                Ok(()) => {}
                Err(Stop::OutOfMemory) => return Ok(Next::OutOfMemory),
                Err(Stop::WriteFault) => return Err(Failed),
            },
            last => return Ok(last),
        }
    }
}

/// Writes the line of each record of a stream that has answered nothing yet, and then a line for
/// the answer that ended it. It gives the exit status:
///
/// 0 the stream came to its end, 4 it is malformed, 5 a read failed, 6 a write failed, 7 there was
/// no memory, 8 there is too much of something.
///
/// It keeps one record at a time.
pub fn dump_probes<P: Probes, O: Sink>(alloc: Global, probes: &mut P, out: &mut O) -> u8
    requires { IsFresh (P.progress probes.old) }
    // Whatever failed: another status than those of a fault or of want of memory comes with the
    // text that all answers have.
    ensures whole { result ≢ 5 → result ≢ 6 → result ≢ 7 → IfSome (P.left probes.old) (λ answers.
        (result ≡ stream_status answers) × Appends (O.written out.old) (dump_text answers) (O.written out.new)) }

    // Where nothing failed and memory was not refused, that text comes.
    ensures calm { (Rose (P.faults probes.old) (P.faults probes.new) → ⊥)
        → (Rose (O.faults out.old) (O.faults out.new) → ⊥) → result ≢ 7 → IfSome (P.left probes.old) (λ answers.
        (result ≡ stream_status answers) × Appends (O.written out.old) (dump_text answers) (O.written out.new)) }

    // The stream is read to its end, also where it does not tell its answers.
    ensures ended { result ≢ 6 → result ≢ 7
        → IsSomeAnd (P.progress probes.new).ended (λ last. result ≡ last_status last) }

    ensures read_fault { result ≡ 5 → Rose (P.faults probes.old) (P.faults probes.new) }
    ensures needed { result ≡ 5 → (bytes : Option (List ℕ)) → P.has_origin probes.old bytes → P.leaves_open probes.new bytes }
    ensures read_fault_text { result ≡ 5 → (text : List ℕ)
        × IsCutShort (P.left probes.old) read_fault_line text × Appends (O.written out.old) text (O.written out.new) }
    ensures memory { result ≡ 7 → (text : List ℕ)
        × IsCutShort (P.left probes.old) memory_line text × Appends (O.written out.old) text (O.written out.new) }
    ensures write_fault { result ≡ 6 → Rose (O.faults out.old) (O.faults out.new) }

    // What is written then is a front of what may come.
    ensures write_fault_front { result ≡ 6 → (text : List ℕ)
        × MayDump (P.left probes.old) (Rose (P.faults probes.old) (P.faults probes.new)) text
        × AppendsPart (O.written out.old) text (O.written out.new) }

    ensures probes_never_falls { P.faults probes.old ≤ P.faults probes.new }
    ensures out_never_falls { O.faults out.old ≤ O.faults out.new }
    ensures same_lent { P.lent probes.new ≡ P.lent probes.old }
{
    match put_records(alloc, probes, out) {
        Ok(last) => put_last(alloc, &last, out),
        Err(Failed) => WRITE_FAULT,
    }
}
