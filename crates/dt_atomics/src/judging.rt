ghost use Rattle.std.specs.Prelude.{◌≡◌, ◌≤◌, ◌&&◌, ◌↔◌, ℕ, List, length, IsTrue};
ghost use Rattle.dt_record.specs.Actions.{Action};
ghost use Rattle.dt_record.specs.Lawful.{is_atomic_place};
ghost use Rattle.dt_record.specs.Memory.{line_of, moment_of};
ghost use Rattle.dt_rules.specs.Reservations.{is_live};
ghost use Rattle.dt_sources.specs.Knowing.{Knows};
ghost use Rattle.dt_stores.specs.Standing.{StoresStand};
ghost use Rattle.dt_atomics.specs.Answers.{IsAtomicAnswer, atomic_letters};
ghost use Rattle.dt_atomics.specs.Asking.{has_failed, is_conditional};
ghost use Rattle.dt_atomics.specs.Grounds.{atomic_grounds};
ghost use Rattle.dt_atomics.specs.Newer.{HasNewerByte};
ghost use Rattle.dt_atomics.specs.Reading.{sources_of};

use crate::accesses::{AtomicAccess, has_failed, is_conditional, line_of};
use crate::draining::all_drained;
use crate::reading::{has_newer, number_at, sources};
use crate::values::{success, value, write};
use dt_local::Local;
use dt_record::{Key, Letters};
use dt_rules::{Misfit, NO_LETTERS, Passed, sc_live};
use dt_stores::Stores;
use dt_versions::Moments;

/// Checks an atomic with this key, for a hart with these stores, this local memory and this
/// reservation: the line and the key of the LR that made it.
///
/// The first misfit counts. Undrained expects the number of the oldest store that has to be drained
/// first, and found that of the atomic. ScSuccess expects 1, that a reservation is live, and found
/// 0. AtomicValue expects the old value, extended to 64 bits, or of an SC 0 where it wrote and 1
/// where it did not. AtomicWrite expects the width, then whether memory is written (0 or 1), and
/// then what is written.
pub fn atomic(
    m: &Moments,
    s: &Stores,
    l: &Local,
    reserved: Option<(u64, Key)>,
    key: Key,
    x: AtomicAccess,
) -> Result<Passed, Misfit>
    requires place { IsTrue (is_atomic_place x.paddr x.width) }
    ensures { (actions : List Action) (moments : ℕ → ℕ) → StoresStand s.now actions → Knows l.now m.now.writes actions moments key
        → IsAtomicAnswer (atomic_grounds m.now actions moments reserved) key x result }
{
    all_drained(s, key, x)?;
    let live = may_succeed(m, reserved, key, x);
    success(live, x)?;
    let k = moment(m, key);
    let old = number_at(m, k, x);
    value(old, x)?;
    write(old, x)?;
    Ok(allowed(m, l, k, live, x))
}

/// Whether the atomic is an SC that finds a live reservation of its line. An LR and an AMO ask
/// nothing of it, so the writes since the LR are looked through for an SC alone.
fn may_succeed(m: &Moments, reserved: Option<(u64, Key)>, key: Key, x: AtomicAccess) -> bool
    ensures { result ≡ (is_conditional x.op && is_live m.now.writes reserved (line_of x.paddr) key) }
{
    is_conditional(x.op) && sc_live(m, reserved, line_of(x.paddr), key)
}

/// The moment at which an atomic with this key takes place.
fn moment(m: &Moments, key: Key) -> u32
    ensures value { result ≡ moment_of m.now.writes key }
    ensures within { result ≤ length m.now.writes }
{
    m.count_below(key)
}

/// What an atomic has that reads after the first k writes and may succeed where `live` is set.
fn allowed(m: &Moments, l: &Local, k: u32, live: bool, x: AtomicAccess) -> Passed
    requires within { k ≤ length m.now.writes }
    requires place { IsTrue (is_atomic_place x.paddr x.width) }
    ensures newer { IsTrue result.letters.l ↔ HasNewerByte l.now m.now.writes k x }
    ensures letters { result.letters ≡ atomic_letters result.letters.l (has_failed x && live) }
    ensures sources { result.sources ≡ sources_of m.now.writes k x }
{
    Passed {
        letters: Letters {
            l: has_newer(m, l, k, x),
            s: has_failed(x) && live,
            ..NO_LETTERS
        },
        sources: sources(m, k, x),
    }
}
