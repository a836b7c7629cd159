ghost use Rattle.std.specs.Prelude.{◌≡◌, ◌≢◌, ◌≤◌, ℕ, List, Option, None, Some, IfOk, IfErr, IfSome, OnOk, Err};
ghost use Rattle.dt_record.specs.Streams.{Rose};
ghost use Rattle.dt_verdict.specs.declared.answers.Refusal.TheVariants as refusal;
ghost use Rattle.dt_reading.specs.Reading.{HasCome, IsRefusedAt, refusal_in, with_header};
ghost use Rattle.dt_reading.specs.Underway.{IsBehindHeader};

use dt_record::{Next, Probes, Record};
use dt_verdict::Refusal;
use std::alloc::Global;

/// Reads a stream behind its header, to its end: its records.
pub(crate) fn read_behind<P: Probes>(
    alloc: Global,
    harts: u8,
    wide: bool,
    probes: &mut P,
) -> Result<Vec<Record>, Refusal>
    requires { IsBehindHeader harts wide (P.progress probes.old) }
    ensures came { let told = with_header harts wide (P.left probes.old) in
        IfOk result (λ records. HasCome told (P.progress probes.new) harts wide records.items) }
    ensures accepted { let told = with_header harts wide (P.left probes.old) in
        OnOk result (IfSome told (λ answers. refusal_in answers ≡ None)) }
    ensures refused { let told = with_header harts wide (P.left probes.old) in
        IfErr result (λ r. r ≢ refusal.ReadFault → r ≢ refusal.OutOfMemory → IfSome told (λ answers. refusal_in answers ≡ Some r)) }
    ensures refused_at { IfErr result (λ r. IsRefusedAt (P.progress probes.new) r) }
    ensures fault { result ≡ Err refusal.ReadFault → Rose (P.faults probes.old) (P.faults probes.new) }
    ensures needed { result ≡ Err refusal.ReadFault
        → (bytes : Option (List ℕ)) → P.has_origin probes.old bytes → P.leaves_open probes.new bytes }
    ensures never_falls { P.faults probes.old ≤ P.faults probes.new }
    ensures same_lent { P.lent probes.new ≡ P.lent probes.old }
{
    let mut records = Vec::new(alloc);
    loop {
        match probes.next() {
            Next::Event(event) => match records.push(event) {
                Ok(()) => {}
                Err(_) => return Err(Refusal::OutOfMemory),
            },
            Next::End { .. } => return Ok(records),
            Next::Malformed { offset } => return Err(Refusal::Malformed { offset }),
            Next::Limit { what, number } => return Err(Refusal::Limit { what, number }),
            Next::ReadFault => return Err(Refusal::ReadFault),
            Next::OutOfMemory => return Err(Refusal::OutOfMemory),
            Next::Header { .. } => unreachable!(),
        }
    }
}
