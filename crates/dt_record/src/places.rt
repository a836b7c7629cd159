ghost use Rattle.std.specs.Prelude.{◌≡◌};
ghost use Rattle.dt_record.specs.Lawful.{is_in_ram, is_ram_line};

use crate::limits::{LINE_SIZE, RAM_END, RAM_START};

/// Whether the address is one of RAM.
pub fn is_in_ram(addr: u64) -> bool
    ensures { result ≡ is_in_ram addr }
{
    RAM_START <= addr && addr < RAM_END
}

/// Whether the address is that of a line of RAM.
pub fn is_ram_line(line: u64) -> bool
    ensures { result ≡ is_ram_line line }
{
    line % LINE_SIZE == 0 && is_in_ram(line)
}
