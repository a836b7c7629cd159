ghost use Rattle.std.specs.Prelude.{◌≡◌, ℕ, ◌+◌, ◌%◌, ◌==◌, ◌&&◌, ◌<◌, ◌≤◌, if◌then◌else◌, is_some, length, slice_get, Some, IfSome, IsTrue, OnOk, OnErr};
ghost use Rattle.std.specs.Int.{bit_at};
ghost use Rattle.std.specs.Option.{option_map_or};
ghost use Rattle.dt_local.specs.LocalMemory.{newest_of, is_noted, greater};
ghost use Rattle.dt_local.specs.Marks.{KeepsMarks};
ghost use Rattle.dt_record.specs.Lawful.{is_in_ram, is_ram_line};
ghost use Rattle.dt_record.specs.declared.keys.Key.{Key};
ghost use Rattle.dt_record.specs.declared.origins.Origin.TheVariants as origin;
ghost use Rattle.dt_sources.specs.Knowing.{covering_key, write_key};
ghost use Rattle.dt_hart.specs.Following.{known_in, read_key};

use dt_local::Local;
use dt_record::{Key, Origin, Write};
use std::alloc::AllocError;

/// Notes what an atomic leaves that made this write or none: its own key for the bytes that it
/// wrote, and where it wrote none and reads, the writes that its bytes came from.
pub fn note_atomic(
    local: &mut Local,
    own: Option<Write>,
    reads: bool,
    addr: u64,
    from: &[Origin],
) -> Result<(), AllocError>
    requires in_ram { IsTrue (is_in_ram addr) }
    requires on_one_line { addr % 64 + length from.now ≤ 64 }
    requires line { IfSome own (λ w. IsTrue (is_ram_line w.line)) }
    ensures noted { OnOk result ((byte : ℕ) → newest_of local.new byte ≡ greater (newest_of local.old byte)
        (option_map_or (covering_key byte) own (if reads then read_key addr from.now byte else None))) }
    ensures marks { OnOk result (KeepsMarks (known_in local.old) (known_in local.new)) }
    ensures unchanged { OnErr result (known_in local.new ≡ known_in local.old) }
{
    match own {
        Some(w) => note_own(local, w.key, w.line, w.mask),
        None if reads => note_read(local, addr, from),
        None => Ok(()),
    }
}

/// Notes the same key for each of these bytes of a line.
fn note_own(local: &mut Local, key: Key, line: u64, mask: u64) -> Result<(), AllocError>
    requires { IsTrue (is_ram_line line) }
    ensures noted { OnOk result ((byte : ℕ) → newest_of local.new byte ≡ greater (newest_of local.old byte)
        (if is_noted line mask byte then Some key else None)) }
    ensures marks { OnOk result (KeepsMarks (known_in local.old) (known_in local.new)) }
    ensures unchanged { OnErr result (known_in local.new ≡ known_in local.old) }
{
    local.reserve(line, mask)?;
    local.note(line, mask, &[key; 64]);
    Ok(())
}

/// Notes for each byte of a load the key of the write that it came from.
pub fn note_read(local: &mut Local, addr: u64, from: &[Origin]) -> Result<(), AllocError>
    requires in_ram { IsTrue (is_in_ram addr) }
    requires on_one_line { addr % 64 + length from.now ≤ 64 }
    ensures noted { OnOk result ((byte : ℕ) → newest_of local.new byte ≡ greater (newest_of local.old byte) (read_key addr from.now byte)) }
    ensures marks { OnOk result (KeepsMarks (known_in local.old) (known_in local.new)) }
    ensures unchanged { OnErr result (known_in local.new ≡ known_in local.old) }
{
    let place = (addr % 64) as usize;
    let line = addr - addr % 64;
    let mask = mask_of(place, from);
    local.reserve(line, mask)?;
    local.note(line, mask, &keys_of(place, from));
    Ok(())
}

/// The bytes of a line that came from writes, where the first of the sources is that of this place.
fn mask_of(place: usize, from: &[Origin]) -> u64
    requires { place + length from.now ≤ 64 }
    ensures { (at : ℕ) → bit_at result at ≡ (if is_some (read_key place from.now at) then 1 else 0) }
{
    let mut mask = 0;
    for (i, source) in from.iter().enumerate() {
        mask = with_bit(mask, place + i, *source);
    }
    mask
}

/// The mask with the bit at a place, where the source of that byte is a write.
fn with_bit(mask: u64, place: usize, source: Origin) -> u64
    requires { place < 64 }
    ensures { (at : ℕ) → bit_at result at ≡ (if (at == place) && is_some (write_key (Some source)) then 1 else bit_at mask at) }
{
    match source {
        Origin::Write(_) => mask | 1 << place,
        Origin::Image | Origin::Store(_) => mask,
    }
}

/// The keys of these writes, by their places on the line.
fn keys_of(place: usize, from: &[Origin]) -> [Key; 64]
    requires { place + length from.now ≤ 64 }
    ensures { (at : ℕ) (key : Key) → read_key place from.now at ≡ Some key → slice_get result at ≡ Some key }
{
    let mut keys = [NO_KEY; 64];
    for (i, source) in from.iter().enumerate() {
        keys[place + i] = key_of(*source);
    }
    keys
}

const NO_KEY: Key = Key {
    stamp: 0,
    hart: 0,
    seq: 0,
};

fn key_of(source: Origin) -> Key
    ensures { (key : Key) → source ≡ origin.Write key → result ≡ key }
{
    match source {
        Origin::Write(key) => key,
        Origin::Image | Origin::Store(_) => NO_KEY,
    }
}
