ghost use Rattle.std.specs.Prelude.{◌≡◌, IfOk};
ghost use Rattle.dt_stores.specs.Lines.{KeepsPlaces, KeepsTaken};

use crate::entries::Entry;
use crate::lines::Line;
use std::alloc::{AllocError, Global};

/// The same stores.
pub fn copy_entries(alloc: Global, entries: &[Entry]) -> Result<Vec<Entry>, AllocError>
    ensures { IfOk result (λ copies. copies.items ≡ entries.now) }
{
    let mut copies = Vec::new(alloc);
    for e in entries {
        copies.push(e.copy())?;
    }
    Ok(copies)
}

/// The same stores of each line.
pub fn copy_lines(alloc: Global, lines: &[Line]) -> Result<Vec<Line>, AllocError>
    ensures places { IfOk result (λ copies. KeepsPlaces lines.now copies.items) }
    ensures taken { IfOk result (λ copies. KeepsTaken lines.now copies.items) }
{
    let mut copies = Vec::new(alloc);
    for l in lines {
        let places = Vec::from_slice(alloc, &l.places)?;
        let taken = l.taken;
        copies.push(Line { places, taken })?;
    }
    Ok(copies)
}
