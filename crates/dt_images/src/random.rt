ghost use Rattle.std.specs.Prelude.{◌≡◌, ◌+◌, ◌*◌, ◌++◌, IfOk, OnOk, length};
ghost use Rattle.std.specs.List.{flat_map};
ghost use Rattle.dt_record.specs.Spelling.{word};
ghost use Rattle.dt_images.specs.RandomImage.{drawn_words, random_bytes};

use crate::instructions::random_word;
use crate::words::put_word;
use dt_random::Draws;
use dt_record::Image;
use std::alloc::{AllocError, Global};

/// auipc x30,0x10: the data stand 64 KiB behind the first word.
const FIRST: u32 = 0x0001_0f17;

/// jal x0,-4088: back to the second word.
const LAST: u32 = 0x808f_f06f;

/// How many words stand between the first and the last.
const DRAWN: usize = 1022;

fn put_drawn(out: &mut Vec<u8>, seed: u64, count: usize) -> Result<(), AllocError>
    ensures bytes { OnOk result (out.new.items ≡ out.old.items ++ flat_map word (drawn_words seed count)) }
    ensures length { OnOk result (length out.new.items ≡ length out.old.items + 4 * count) }
{
    let mut draws = Draws::of(seed);
    for _ in 0..count {
        let draw = draws.draw();
        put_word(out, random_word(draw))?;
    }
    Ok(())
}

/// The image of random instructions that a seed gives: an endless loop over words of arithmetic,
/// loads, stores, atomics and fences, all in the same 512 bytes of data. An `Err` is want of memory.
pub fn random_image(alloc: Global, seed: u64) -> Result<Image, AllocError>
    ensures { IfOk result (λ image. image ≡ random_bytes seed) }
{
    let mut bytes = Vec::new(alloc);
    put_word(&mut bytes, FIRST)?;
    put_drawn(&mut bytes, seed, DRAWN)?;
    put_word(&mut bytes, LAST)?;
    Ok(Image::of(bytes))
}
