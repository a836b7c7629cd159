ghost use Rattle.std.specs.Prelude.{◌≡◌, ◌≤◌, length};
ghost use Rattle.std.specs.Option.{option_copied};
ghost use Rattle.dt_record.specs.declared.limits.TheConstants.{RAM_START};
ghost use Rattle.dt_record.specs.Memory.{last_covering};
ghost use Rattle.dt_versions.specs.Chains.{IsChained, chain_of};

use crate::chains::{Row, line_place, newest_at, number_at, numbered_write};
use dt_record::Write;

/// The last of the first k writes that covers the byte.
pub fn last_cover<'a>(
    writes: &'a [Write],
    rows: &[Row],
    lines: &[Vec<u32>],
    k: u32,
    addr: u64,
) -> Option<&'a Write>
    requires chained { IsChained writes.now rows.now (chain_of lines.now) }
    requires within { k ≤ length writes.now }
    requires in_ram { RAM_START ≤ addr }
    ensures { option_copied result ≡ last_covering writes.now k addr }
{
    let newest = newest_at(lines, line_place(addr), k);
    let number = number_at(rows, newest, (addr % 64) as usize);
    numbered_write(writes, number)
}
