ghost use Rattle.std.specs.Prelude.{◌≡◌, ◌≤◌, ◌<◌, ◌↔◌, length, IsTrue};
ghost use Rattle.dt_record.specs.declared.limits.TheConstants.{RAM_END, RAM_START};
ghost use Rattle.dt_record.specs.Lawful.{is_atomic_place};
ghost use Rattle.dt_record.specs.LoadSources.{origin_of_key};
ghost use Rattle.dt_atomics.specs.Newer.{HasNewerByte};
ghost use Rattle.dt_atomics.specs.Reading.{source_of, sources_of};
ghost use Rattle.dt_atomics.specs.Values.{number_at};

use crate::accesses::{AtomicAccess, reads};
use dt_loads::is_newer;
use dt_local::Local;
use dt_record::{Origin, Sources};
use dt_rules::NO_SOURCES;
use dt_versions::Moments;

/// The number that memory holds at the atomic's place after the first k writes.
pub fn number_at(m: &Moments, k: u32, x: AtomicAccess) -> u64
    requires within { k ≤ length m.now.writes }
    requires place { IsTrue (is_atomic_place x.paddr x.width) }
    ensures { result ≡ number_at m.now.image m.now.writes k x.width x.paddr }
{
    let mut number = 0;
    for i in 0..x.width {
        let addr = x.paddr + u64::from(x.width - 1 - i);
        number = number * 256 + u64::from(m.byte(k, addr));
    }
    number
}

/// Where the bytes come from that the atomic reads after the first k writes.
pub fn sources(m: &Moments, k: u32, x: AtomicAccess) -> Sources
    requires within { k ≤ length m.now.writes }
    requires place { IsTrue (is_atomic_place x.paddr x.width) }
    ensures { result ≡ sources_of m.now.writes k x }
{
    if !reads(x.op) {
        return NO_SOURCES;
    }
    let mut from = [Origin::Image; 8];
    for i in 0..x.width {
        from[usize::from(i)] = source(m, k, x.paddr + u64::from(i));
    }
    Sources {
        count: x.width,
        from,
    }
}

fn source(m: &Moments, k: u32, addr: u64) -> Origin
    requires within { k ≤ length m.now.writes }
    requires in_ram { RAM_START ≤ addr }
    requires before_end { addr < RAM_END }
    ensures { result ≡ source_of m.now.writes k addr }
{
    match m.source(k, addr) {
        Some(key) => Origin::Write(key),
        None => Origin::Image,
    }
}

/// Whether a byte that the atomic reads after the first k writes comes from a write that is newer
/// than the newest one known for it.
pub fn has_newer(m: &Moments, l: &Local, k: u32, x: AtomicAccess) -> bool
    requires within { k ≤ length m.now.writes }
    requires place { IsTrue (is_atomic_place x.paddr x.width) }
    ensures { IsTrue result ↔ HasNewerByte l.now m.now.writes k x }
{
    if !reads(x.op) {
        return false;
    }
    for i in 0..x.width {
        let addr = x.paddr + u64::from(i);
        if is_newer(source(m, k, addr), l.newest(addr)) {
            return true;
        }
    }
    false
}
