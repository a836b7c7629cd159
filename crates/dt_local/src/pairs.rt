ghost use Rattle.std.specs.Prelude.{◌≡◌, ◌++◌, map, IsTrue, IfOk, OnOk};
ghost use Rattle.dt_local.specs.LocalMemory.{pair_of};
ghost use Rattle.dt_local.specs.Slots.{is_ram_word, known_bytes, present, word_bytes, AreWords};

use crate::slots::{Slot, key_of_byte};
use dt_record::{Known, KnownByte};
use std::alloc::{AllocError, Global};
use std::collections::BTreeMap;

/// The bytes of these words that have a key, with it.
pub fn known_of(alloc: Global, slots: &BTreeMap<u64, Slot>) -> Result<Known, AllocError>
    requires { AreWords slots.now }
    ensures { IfOk result (λ known. map pair_of known ≡ known_bytes slots.now.entries) }
{
    let mut bytes = Vec::new(alloc);
    for (word, slot) in slots {
        push_word(&mut bytes, *word, slot)?;
    }
    Ok(Known::of(bytes))
}

/// Adds the bytes of a word that have a key, with it.
fn push_word(bytes: &mut Vec<KnownByte>, word: u64, slot: &Slot) -> Result<(), AllocError>
    requires { IsTrue (is_ram_word word) }
    ensures { OnOk result (map pair_of bytes.new.items ≡ map pair_of bytes.old.items ++ present (word_bytes (word, slot.now))) }
{
    for place in 0..8 {
        if let Some(key) = key_of_byte(slot, place) {
            let addr = 8 * word + place as u64;
            bytes.push(KnownByte { addr, key })?;
        }
    }
    Ok(())
}
