ghost use Rattle.std.specs.Prelude.{◌≡◌, ◌≢◌, ◌≤◌, ℕ, List, Option, Some, Err, IfOk, IfErr, IfSome, OnOk};
ghost use Rattle.dt_record.specs.Streams.{IsFresh, Rose};
ghost use Rattle.dt_verdict.specs.declared.answers.Refusal.TheVariants as refusal;
ghost use Rattle.dt_reading.specs.Reading.{IsRefusedAt, refusal_in, with_header};
ghost use Rattle.dt_reading.specs.Underway.{IsBehindHeader};

use dt_record::{Next, Probes};
use dt_verdict::Refusal;

/// What a stream answers before its first record.
#[derive(Clone, Copy, Debug, PartialEq, Eq)]
pub struct StreamHeader {
    /// The number of harts, from 1 to 8.
    pub harts: u8,
    /// Whether satp may hold the mode of Sv48.
    pub wide: bool,
}

/// Reads the header of a stream that has answered nothing yet.
pub fn read_header<P: Probes>(probes: &mut P) -> Result<StreamHeader, Refusal>
    requires { IsFresh (P.progress probes.old) }
    ensures behind { IfOk result (λ header. IsBehindHeader header.harts header.wide (P.progress probes.new)) }
    ensures told { IfOk result (λ header. P.left probes.old ≡ with_header header.harts header.wide (P.left probes.new)) }
    ensures refused { IfErr result (λ r. r ≢ refusal.ReadFault → r ≢ refusal.OutOfMemory
        → IfSome (P.left probes.old) (λ answers. refusal_in answers ≡ Some r)) }
    ensures refused_at { IfErr result (λ r. IsRefusedAt (P.progress probes.new) r) }
    ensures fault { result ≡ Err refusal.ReadFault → Rose (P.faults probes.old) (P.faults probes.new) }
    ensures quiet { result ≢ Err refusal.ReadFault → P.faults probes.new ≡ P.faults probes.old }
    ensures needed { result ≡ Err refusal.ReadFault
        → (bytes : Option (List ℕ)) → P.has_origin probes.old bytes → P.leaves_open probes.new bytes }
    ensures same_origin { (bytes : Option (List ℕ)) → P.has_origin probes.old bytes → P.has_origin probes.new bytes }
    ensures never_falls { P.faults probes.old ≤ P.faults probes.new }
    ensures same_lent { P.lent probes.new ≡ P.lent probes.old }
{
    match probes.next() {
        Next::Header { harts, wide } => Ok(StreamHeader { harts, wide }),
        Next::Malformed { offset } => Err(Refusal::Malformed { offset }),
        Next::Limit { what, number } => Err(Refusal::Limit { what, number }),
        Next::ReadFault => Err(Refusal::ReadFault),
        Next::OutOfMemory => Err(Refusal::OutOfMemory),
        Next::Event(_) | Next::End { .. } => unreachable!(),
    }
}
