ghost use Rattle.std.specs.Prelude.{◌≡◌, ℕ, ◌==◌, map, IfOk};
ghost use Rattle.std.specs.Map.{lookup};
ghost use Rattle.dt_local.specs.LocalMemory.{AreKnownBytes, newest_of, pair_of};

use crate::notes::note_read;
use dt_local::Local;
use dt_record::{KnownByte, Origin};
use std::alloc::{AllocError, Global};

/// A hart that knows these writes of these bytes.
pub fn local_of(alloc: Global, known: &[KnownByte]) -> Result<Local, AllocError>
    requires { AreKnownBytes (map pair_of known.now) }
    ensures { IfOk result (λ local. (byte : ℕ) → newest_of local byte ≡ lookup (λ a. a == byte) (map pair_of known.now)) }
{
    let mut local = Local::new(alloc);
    for entry in known {
        note_read(&mut local, entry.addr, &[Origin::Write(entry.key)])?;
    }
    Ok(local)
}
