ghost use Rattle.std.specs.Prelude.{◌≡◌, ℕ, ◌+◌, ◌≤◌, ◌<◌, ◌==◌, Some, length, slice_get};
ghost use Rattle.dt_record.specs.declared.limits.TheConstants.{RAM_END, RAM_START};
ghost use Rattle.dt_record.specs.LoadSources.{rank_below};
ghost use Rattle.dt_record.specs.declared.origins.Origin.TheVariants as origin;
ghost use Rattle.dt_versions.specs.Laws.{source_rank};
ghost use Rattle.dt_sources.specs.Tries.{tried_byte, tried_origin, tried_rank, tried_value, are_kept, are_fit};

use dt_record::{Key, Origin};
use dt_stores::Forward;
use dt_versions::Moments;

/// What is known of one byte of a load before any moment is tried.
#[derive(Clone, Copy, Debug)]
pub struct LoadByte {
    /// What the hart's own stores forward.
    pub own: Option<Forward>,
    /// The newest key that the hart knows for the byte.
    pub newest: Option<Key>,
}

/// Whether bytes from an address on, read at a moment, are those of a number, the low byte first,
/// and none comes from below the newest key that the hart knows for it.
pub fn is_fit(m: &Moments, k: u32, addr: u64, raw: u64, bytes: &[LoadByte]) -> bool
    requires within { k ≤ length m.now.writes }
    requires in_ram { RAM_START ≤ addr }
    requires before_end { addr + length bytes.now ≤ RAM_END }
    ensures { result ≡ are_fit m.now k addr raw bytes.now }
{
    gives_value(m, k, addr, raw, bytes) && keeps_newest(m, k, addr, bytes)
}

fn gives_value(m: &Moments, k: u32, addr: u64, raw: u64, bytes: &[LoadByte]) -> bool
    requires within { k ≤ length m.now.writes }
    requires in_ram { RAM_START ≤ addr }
    requires before_end { addr + length bytes.now ≤ RAM_END }
    ensures { result ≡ (tried_value m.now k addr bytes.now == raw) }
{
    let mut rest = raw;
    let mut at = addr;
    for b in bytes {
        let byte = byte_at(m, k, at, b);
        if u64::from(byte) != rest % 256 {
            return false;
        }
        rest /= 256;
        at += 1;
    }
    rest == 0
}

fn keeps_newest(m: &Moments, k: u32, addr: u64, bytes: &[LoadByte]) -> bool
    requires within { k ≤ length m.now.writes }
    requires in_ram { RAM_START ≤ addr }
    requires before_end { addr + length bytes.now ≤ RAM_END }
    ensures { result ≡ are_kept m.now k addr bytes.now }
{
    let mut at = addr;
    for b in bytes {
        if is_below_newest(m, k, at, b) {
            return false;
        }
        at += 1;
    }
    true
}

fn byte_at(m: &Moments, k: u32, addr: u64, b: &LoadByte) -> u8
    requires within { k ≤ length m.now.writes }
    requires in_ram { RAM_START ≤ addr }
    requires before_end { addr < RAM_END }
    ensures { result ≡ tried_byte m.now k addr b.now }
{
    match b.own {
        Some(f) => f.byte,
        None => m.byte(k, addr),
    }
}

/// Whether the byte comes from below the newest key that the hart knows for it.
fn is_below_newest(m: &Moments, k: u32, addr: u64, b: &LoadByte) -> bool
    requires within { k ≤ length m.now.writes }
    requires in_ram { RAM_START ≤ addr }
    requires before_end { addr < RAM_END }
    ensures { result ≡ rank_below (tried_rank m.now k addr b.now) (source_rank b.now.newest) }
{
    match b.own {
        Some(Forward { drained: None, .. }) => false,
        Some(
            Forward {
                drained: Some(key),
                ..
            },
        ) => is_below(Some(key), b.newest),
        None => is_below(m.source(k, addr), b.newest),
    }
}

/// Whether a write or, without one, the image stands below a key.
fn is_below(source: Option<Key>, newest: Option<Key>) -> bool
    ensures { result ≡ rank_below (source_rank source) (source_rank newest) }
{
    match (source, newest) {
        (_, None) => false,
        (None, Some(_)) => true,
        (Some(source), Some(newest)) => source < newest,
    }
}

/// The sources of bytes from an address on, read at a moment. Further entries are `Image`.
pub fn origins_at(m: &Moments, k: u32, addr: u64, bytes: &[LoadByte]) -> [Origin; 8]
    requires within { k ≤ length m.now.writes }
    requires in_ram { RAM_START ≤ addr }
    requires before_end { addr + length bytes.now ≤ RAM_END }
    requires narrow { length bytes.now ≤ 8 }
    ensures from { (i : ℕ) (b : LoadByte) → slice_get bytes.now i ≡ Some b → slice_get result i ≡ Some (tried_origin m.now k (addr + i) b) }
    ensures no_more { (i : ℕ) → length bytes.now ≤ i → i < 8 → slice_get result i ≡ Some origin.Image }
{
    let mut from = [Origin::Image; 8];
    for (i, b) in bytes.iter().enumerate() {
        from[i] = origin_at(m, k, addr + i as u64, b);
    }
    from
}

fn origin_at(m: &Moments, k: u32, addr: u64, b: &LoadByte) -> Origin
    requires within { k ≤ length m.now.writes }
    requires in_ram { RAM_START ≤ addr }
    requires before_end { addr < RAM_END }
    ensures { result ≡ tried_origin m.now k addr b.now }
{
    match b.own {
        Some(f) => Origin::Store(f.seq),
        None => match m.source(k, addr) {
            Some(key) => Origin::Write(key),
            None => Origin::Image,
        },
    }
}
