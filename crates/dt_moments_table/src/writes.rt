ghost use Rattle.std.specs.Prelude.{◌≡◌, ◌+◌, ◌≤◌, ◌<◌, length};

use dt_record::{Image, Key, RAM_START, Write};
use dt_versions::Moments;
use std::alloc::{AllocError, Global};

/// The number that follows another in a sequence without a pattern.
pub fn next(seed: u64) -> u64 {
    let mixed = seed
        .wrapping_mul(0x5851_f42d_4c95_7f2d)
        .wrapping_add(0x1405_7b7e_f767_814f);
    mixed ^ (mixed >> 29)
}

/// A key of one of two harts.
pub fn some_key(seed: u64, stamp: u64, seq: u32) -> Key {
    Key {
        stamp,
        hart: (seed % 2) as u8,
        seq,
    }
}

/// A write to one of two lines.
fn some_write(seed: u64, key: Key) -> Write {
    Write {
        key,
        line: RAM_START + 64 * (seed / 2 % 2),
        mask: next(seed) & next(next(seed)),
        bytes: [(seed / 4 % 256) as u8; 64],
    }
}

/// Up to a dozen writes over an image that begins with 1, 2 and 3, and the same writes as a list.
pub fn some_moments(alloc: Global, seed: u64) -> Result<(Moments, Vec<Write>), AllocError> {
    let mut moments = Moments::empty(alloc, Image::of(Vec::from_slice(alloc, &[1, 2, 3])?));
    let mut writes = Vec::new(alloc);
    let mut seed = seed;
    let mut stamp = 5u64;
    for seq in 0..12 {
        seed = next(seed);
        stamp = stamp.wrapping_add(seed / 1024 % 2);
        let w = some_write(seed, some_key(seed, stamp, seq));
        if moments.can_add(&w) {
            moments.add(w)?;
            writes.push(w)?;
        }
    }
    Ok((moments, writes))
}
