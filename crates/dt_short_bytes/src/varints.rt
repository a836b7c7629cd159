ghost use Rattle.std.specs.Prelude.{◌≡◌, ◌≤◌, ◌<◌, ◌+◌, ◌*◌, ◌^◌, ◌++◌, OnOk, IfOk};
ghost use Rattle.dt_record.specs.Spelling.{varint};
ghost use Rattle.dt_short_bytes.specs.ShortReading.{Gives, is_wrong_group, groups_at, later_at};

use crate::short_pieces::Stop;
use std::alloc::AllocError;

/// Writes a number in groups of seven bits, the lowest first. Each byte but the last has bit 7 set.
pub(crate) fn push_varint(out: &mut Vec<u8>, number: u64) -> Result<(), AllocError>
    ensures { OnOk result (out.new.items ≡ out.old.items ++ varint number) }
{
    let mut rest = number;
    while rest >= 128 {
        out.push((128 + rest % 128) as u8)?;
        rest /= 128;
    }
    out.push(rest as u8)?;
    Ok(())
}

/// Whether no number that isn't 0 goes on with this group, where at most so many follow it.
fn is_wrong(more: u8, group: u64) -> bool
    ensures { result ≡ is_wrong_group more group }
{
    if more == 0 { group != 1 } else { group == 0 }
}

/// The number at the front that isn't 0, where at most so many bytes follow its first.
pub(crate) fn read_groups(b: &[u8], more: u8) -> Result<(u64, &[u8]), Stop>
    requires { more ≤ 9 }
    ensures gives { Gives (λ x. (x.0, x.1.now)) result (groups_at more b.now) }
    ensures bound { IfOk result (λ x. x.0 < 2 ^ (7 * more + 1)) }
{
    match b {
        [] => Err(Stop::Short),
        [first, rest @ ..] => {
            let group = u64::from(*first);
            if is_wrong(more, group) {
                return Err(Stop::Bad { left: b.len() });
            }
            if group < 128 {
                return Ok((group, rest));
            }
            let (high, rest) = read_groups(rest, more - 1)?;
            Ok((group - 128 + 128 * high, rest))
        }
    }
}

/// The number at the front.
#[tactic(auto, unfolding(crate::specs::ShortReading::later_at))]
pub(crate) fn read_varint(b: &[u8]) -> Result<(u64, &[u8]), Stop>
    ensures { Gives (λ x. (x.0, x.1.now)) result (later_at b.now) }
{
    match b {
        [0, rest @ ..] => Ok((0, rest)),
        _ => read_groups(b, 9),
    }
}
