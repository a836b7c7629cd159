ghost use Rattle.std.specs.Prelude.{◌≡◌, ◌<◌, ◌≤◌, ◌++◌, ℕ, List, length, OnOk, OnErr};
ghost use Rattle.dt_record.specs.declared.records.Record.{Record};
ghost use Rattle.dt_record.specs.Lawful.{IsLawful};
ghost use Rattle.dt_record.specs.Spelling.{wide_bytes};
ghost use Rattle.dt_record_bytes.specs.declared.decoded.Decoded.{Decoded};
ghost use Rattle.dt_record_bytes.specs.WideAnswer.{IsSpelled, LacksRecord, IsWideAnswer};

use crate::decoded::Decoded;
use crate::wide_bounds::broken_place;
use crate::wide_reading::{fields_of, length_of};
use crate::wide_writing::{put_body, put_double};
use dt_record::{Record, tag_of};
use std::alloc::AllocError;

/// Appends the record's spelling.
#[tactic(auto, unfolding(dt_record::specs::Spelling::wide_bytes))]
pub fn encode(event: &Record, out: &mut Vec<u8>) -> Result<(), AllocError>
    requires { IsLawful event.now }
    ensures ok { OnOk result (out.new.items ≡ out.old.items ++ wide_bytes event.now) }
    ensures err { OnErr result (out.new.items ≡ out.old.items) }
{
    let mut spelled = Vec::new(*out.allocator());
    spelled.extend_from_slice(&[tag_of(&event.body), event.hart])?;
    put_double(&mut spelled, event.stamp)?;
    put_body(&mut spelled, &event.body)?;
    out.extend_from_slice(&spelled)
}

/// What bytes are. The answer is one (`only`): `Got` where the spelling of a lawful record stands
/// at the front, `Short` where there are no bytes or fewer than their kind has, else `Bad`, with
/// the place 0 where no kind has the tag. Takes no memory.
pub fn decode(b: &[u8]) -> Decoded
    ensures answer { IsWideAnswer b.now result }
    ensures only { (other : Decoded) → IsWideAnswer b.now other → result ≡ other }
    ensures read { (event : Record) (rest : List ℕ) → IsSpelled b.now event rest
        → result ≡ Decoded.Got event (length (wide_bytes event)) }
    ensures got { (event : Record) (len : ℕ) → result ≡ Decoded.Got event len
        → (10 ≤ len) × (len ≤ 266) × (len ≤ length b.now) }
    ensures short { result ≡ Decoded.Short → LacksRecord b.now × (length b.now < 266) }
    ensures bad { (place : ℕ) (more : List ℕ) → result ≡ Decoded.Bad place → LacksRecord (b.now ++ more) }
{
    answer_to(b)
}

fn answer_to(b: &[u8]) -> Decoded
    ensures { IsWideAnswer b.now result }
{
    let Some(tag) = b.first() else {
        return Decoded::Short;
    };
    let Some(len) = length_of(*tag) else {
        return Decoded::Bad { at: 0 };
    };
    if b.len() < len {
        return Decoded::Short;
    }
    let fields = fields_of(b);
    match broken_place(&fields.event, fields.wrote_byte) {
        None => Decoded::Got {
            event: fields.event,
            len,
        },
        Some(at) => Decoded::Bad { at },
    }
}
