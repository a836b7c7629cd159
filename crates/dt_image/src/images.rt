ghost use Rattle.std.specs.Prelude.{◌≡◌, ◌≢◌, ◌≤◌, ℕ, [], IfOk, IfSome, OnOk, OnErr, length};
ghost use Rattle.dt_record.specs.declared.limits.TheConstants.{IMAGE_LIMIT};
ghost use Rattle.dt_source.specs.Faults.{Rose};
ghost use Rattle.dt_source.specs.Known.{TakesFrom, TakesSome};
ghost use Rattle.dt_image.specs.Loading.{loaded};

use dt_record::{IMAGE_LIMIT, Image};
use dt_source::{ReadRefusal, Source, read_up_to};
use std::alloc::Global;

/// Why there is no image. What was read of the source stays read.
#[derive(Clone, Copy, Debug, PartialEq, Eq)]
pub enum ImageRefusal {
    /// There were more bytes than an image may have: one more than that was read.
    TooLong,
    /// A read failed.
    ReadFault,
    /// There was no memory for the bytes.
    OutOfMemory,
}

impl From<ReadRefusal> for ImageRefusal {
    ghost use Rattle.dt_image.specs.Loading.{image_refusal};

    ghost from_gives = { λ refusal image_refused. image_refused ≡ image_refusal refusal };

    fn from(refusal: ReadRefusal) -> ImageRefusal {
        match refusal {
            ReadRefusal::TooLong => ImageRefusal::TooLong,
            ReadRefusal::ReadFault => ImageRefusal::ReadFault,
            ReadRefusal::OutOfMemory => ImageRefusal::OutOfMemory,
        }
    }
}

/// Reads an image to the source's end, where it has at most 16,777,216 bytes.
pub fn load<S: Source>(alloc: Global, source: &mut S) -> Result<Image, ImageRefusal>
    // The image is all that was left, and nothing is left then.
    ensures takes { IfOk result (λ image. TakesFrom (S.left source.old) image (S.left source.new)) }
    ensures end { OnOk result (IfSome (S.left source.new) (λ rest. rest ≡ [])) }
    ensures within { IfOk result (λ image. length image ≤ IMAGE_LIMIT) }

    // Whatever failed: another answer than those of a fault or of want of memory is that of the
    // bytes that were left.
    ensures answer { result ≢ Err ImageRefusal.ReadFault → result ≢ Err ImageRefusal.OutOfMemory
        → IfSome (S.left source.old) (λ bytes. result ≡ loaded bytes) }

    // Where nothing failed and memory was not refused, that answer comes.
    ensures calm { (Rose (S.faults source.old) (S.faults source.new) → ⊥)
        → result ≢ Err ImageRefusal.OutOfMemory
        → IfSome (S.left source.old) (λ bytes. result ≡ loaded bytes) }

    ensures too_long { result ≡ Err ImageRefusal.TooLong
        → TakesSome (S.left source.old) (S.left source.new) 16777217 }
    ensures fault_only { result ≡ Err ImageRefusal.ReadFault
        → Rose (S.faults source.old) (S.faults source.new) }
    ensures fault_takes { result ≡ Err ImageRefusal.ReadFault
        → ((n : ℕ) × (n ≤ IMAGE_LIMIT) × TakesSome (S.left source.old) (S.left source.new) n) }
    ensures refused_takes { OnErr result
        ((n : ℕ) × (n ≤ 16777217) × TakesSome (S.left source.old) (S.left source.new) n) }
    ensures never_falls { S.faults source.old ≤ S.faults source.new }
{
    let bytes = read_up_to(alloc, source, IMAGE_LIMIT)?;
    Ok(Image::of(bytes))
}
