ghost use Rattle.std.specs.Prelude.{◌≡◌, ◌≢◌, ℕ, ◌+◌, ◌*◌, ◌<◌, ◌==◌, Option, Some, None, slice_get};
ghost use Rattle.std.specs.Int.{bit_at};
ghost use Rattle.dt_local.specs.LocalMemory.{greater};
ghost use Rattle.dt_local.specs.Slots.{key_at, noted_in, has_word};

use dt_record::Key;

/// What is known of the 8 bytes of an aligned word.
#[derive(Clone, Copy, Debug)]
pub struct Slot {
    /// The greatest key of each byte that has one.
    keys: [Key; 8],
    /// The bytes that have one.
    mask: u8,
}

/// A word none of whose bytes has a key.
pub fn empty_slot() -> Slot
    ensures { result.mask ≡ 0 }
{
    let none = Key {
        stamp: 0,
        hart: 0,
        seq: 0,
    };
    Slot {
        keys: [none; 8],
        mask: 0,
    }
}

/// The key of the byte at a place of its word.
pub fn key_of_byte(slot: &Slot, place: usize) -> Option<Key>
    requires { place < 8 }
    ensures { result ≡ key_at slot.now place }
{
    if has_byte(u64::from(slot.mask), place) {
        Some(slot.keys[place])
    } else {
        None
    }
}

/// Whether a mask has the byte at a place.
fn has_byte(mask: u64, place: usize) -> bool
    requires { place < 64 }
    ensures { result ≡ (bit_at mask place == 1) }
{
    (mask >> place) & 1 == 1
}

/// Whether a line's mask has a byte of the word at a place of the line.
pub fn has_word(mask: u64, place: usize) -> bool
    requires { place < 8 }
    ensures { result ≡ has_word mask place }
{
    (mask >> (8 * place)) % 256 != 0
}

/// Raises the keys of the word at a place of its line to those that the mask gives, where these
/// are greater.
pub fn raise_slot(slot: &mut Slot, mask: u64, keys: &[Key; 64], place: usize)
    requires { place < 8 }
    ensures { (byte : ℕ) → byte < 8 → key_at slot.new byte ≡ greater (key_at slot.old byte) (noted_in mask keys.now (8 * place + byte)) }
{
    for byte in 0..8 {
        let noted = noted_key(mask, keys, 8 * place + byte);
        raise_byte(slot, byte, noted);
    }
}

/// The key that the byte at a place of its line is given, where it is given one.
fn noted_key(mask: u64, keys: &[Key; 64], place: usize) -> Option<Key>
    requires { place < 64 }
    ensures { result ≡ noted_in mask keys.now place }
{
    if has_byte(mask, place) {
        Some(keys[place])
    } else {
        None
    }
}

fn raise_byte(slot: &mut Slot, place: usize, noted: Option<Key>)
    requires { place < 8 }
    ensures here { key_at slot.new place ≡ greater (key_at slot.old place) noted }
    ensures others { (other : ℕ) → other < 8 → other ≢ place → key_at slot.new other ≡ key_at slot.old other }
{
    if let Some(key) = noted {
        let raised = greater_of(key_of_byte(slot, place), key);
        set_byte(slot, place, raised);
    }
}

fn set_byte(slot: &mut Slot, place: usize, key: Key)
    requires { place < 8 }
    ensures here { key_at slot.new place ≡ Some key }
    ensures others { (other : ℕ) → other < 8 → other ≢ place → key_at slot.new other ≡ key_at slot.old other }
{
    set_key(&mut slot.keys, place, key);
    slot.mask |= 1 << place;
}

fn set_key(keys: &mut [Key; 8], place: usize, key: Key)
    requires { place < 8 }
    ensures here { slice_get keys.new place ≡ Some key }
    ensures others { (other : ℕ) → other < 8 → other ≢ place → slice_get keys.new other ≡ slice_get keys.old other }
{
    keys[place] = key;
}

fn greater_of(old: Option<Key>, key: Key) -> Key
    ensures { Some result ≡ greater old (Some key) }
{
    match old {
        Some(old) if old >= key => old,
        _ => key,
    }
}
