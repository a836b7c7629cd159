ghost use Rattle.std.specs.Prelude.{◌≡◌, ◌≢◌, ◌%◌, IsTrue, IfSome};
ghost use Rattle.dt_decode.specs.Decoded.{IsDecoded};
ghost use Rattle.dt_forms.specs.Meaning.{compressed_instr};
ghost use Rattle.dt_record.specs.Lawful.{is_instruction};
ghost use Rattle.dt_step.specs.Plans.{HasEvenTarget};
ghost use Rattle.dt_reference.specs.Meaning.{meaning_of};

use dt_decode::{Instr, decode};
use dt_forms::expansions_are_decoded;
use dt_rvc::expand;
use dt_step::decoded_targets_are_even;

/// What an instruction as fetched means, where it means something. Above the bits of a short one
/// stand zeros.
pub fn meaning(bits: u32) -> Option<Instr>
    requires { IsTrue (is_instruction bits) }
    ensures meaning { result ≡ meaning_of bits }
    ensures compressed { bits % 4 ≢ 3 → result ≡ compressed_instr bits }
    ensures well_formed { IfSome result IsDecoded }
    ensures even { IfSome result HasEvenTarget }
{
    expansions_are_decoded();
    meaning_by_row(bits)
}

/// The same, by the rows of the two decoders.
fn meaning_by_row(bits: u32) -> Option<Instr>
    requires { IsTrue (is_instruction bits) }
    ensures meaning { result ≡ meaning_of bits }
    ensures well_formed { IfSome result IsDecoded }
    ensures even { IfSome result HasEvenTarget }
{
    decoded_targets_are_even();
    if bits % 4 == 3 {
        decode(bits)
    } else {
        decode(expand(bits as u16)?)
    }
}
