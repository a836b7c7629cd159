ghost use Rattle.std.specs.Prelude.{◌≡◌, IfOk};
ghost use Rattle.dt_images.specs.SpinImage.{spin_bytes};

use crate::words::{fill_to, put_words};
use dt_record::Image;
use std::alloc::{AllocError, Global};

/// What a hart does after its reset: mtvec, mie, satp, mstatus and mepc, and then into S.
const SETUP: [u32; 21] = [
    0x0000_0297,
    0x1002_8313,
    0x3053_1073,
    0x0800_0393,
    0x3043_9073,
    0x0010_0413,
    0x03f4_1413,
    0x00c2_d493,
    0x0024_8493,
    0x0094_6433,
    0x1804_1073,
    0x1200_0073,
    0x0010_0513,
    0x00b5_1513,
    0x3005_2073,
    0x0802_8593,
    0x3415_9073,
    0x0000_3637,
    0x0056_0633,
    0x0010_0693,
    0x3020_0073,
];

/// The loop of S: takes the lock, counts, and gives the lock back.
const LOOP: [u32; 8] = [
    0x0cd6_272f,
    0xfe07_1ee3,
    0x0406_3783,
    0x0017_8793,
    0x04f6_3023,
    0x0310_000f,
    0x0006_2023,
    0xfe5f_f06f,
];

/// What M does at a timer interrupt.
const HANDLER: [u32; 2] = [0xb000_2873, 0x3020_0073];

/// The entry of the page table for the gigapage of RAM.
const ENTRY: [u32; 1] = [0x2000_00cf];

/// The image of a lock that harts share: each takes it in S under Sv39, adds one to a counter and gives
/// it back, for ever, and reads mcycle at each timer interrupt. An `Err` is want of memory.
pub fn spin_image(alloc: Global) -> Result<Image, AllocError>
    ensures { IfOk result (λ image. image ≡ spin_bytes) }
{
    let mut bytes = Vec::new(alloc);
    put_words(&mut bytes, &SETUP)?;
    fill_to(&mut bytes, 0x80)?;
    put_words(&mut bytes, &LOOP)?;
    fill_to(&mut bytes, 0x100)?;
    put_words(&mut bytes, &HANDLER)?;
    fill_to(&mut bytes, 0x2010)?;
    put_words(&mut bytes, &ENTRY)?;
    fill_to(&mut bytes, 0x3000)?;
    Ok(Image::of(bytes))
}
