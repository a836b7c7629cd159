ghost use Rattle.std.specs.Prelude.{◌≡◌, List};
ghost use Rattle.dt_record.specs.Actions.{Action};
ghost use Rattle.dt_stores.specs.Standing.{StoresStand};
ghost use Rattle.dt_atomics.specs.Draining.{all_drained_check, drained_check};

use crate::accesses::{AtomicAccess, has_failed, line_of, reads, writes_now};
use dt_record::Key;
use dt_rules::{Misfit, Reason, none_left};
use dt_stores::{Stores, Which};

/// Whether the own stores that the atomic waits for are drained. Expected is the number of the
/// oldest store that is not, and found that of the atomic's record.
pub fn all_drained(s: &Stores, key: Key, x: AtomicAccess) -> Result<(), Misfit>
    ensures { (actions : List Action) → StoresStand s.now actions → result ≡ all_drained_check actions key x }
{
    drained(s, key, true, Which::Line(line_of(x.paddr)))?;
    drained(s, key, x.release && !has_failed(x), Which::All)?;
    drained(s, key, reads(x.op), Which::BeforeWr)?;
    drained(s, key, writes_now(x.op, x.wrote), Which::BeforeWw)
}

fn drained(s: &Stores, key: Key, asked: bool, which: Which) -> Result<(), Misfit>
    ensures { (actions : List Action) → StoresStand s.now actions → result ≡ drained_check actions key asked which }
{
    if asked {
        let oldest = s.oldest(which, key.stamp);
        none_left(Reason::Undrained, oldest, u64::from(key.seq))
    } else {
        Ok(())
    }
}
