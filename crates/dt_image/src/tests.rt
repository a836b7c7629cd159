//! Images in pieces of several sizes, a failing call, and an image that is too long.
use crate::{ImageRefusal, load};
use dt_record::{IMAGE_LIMIT, RAM_START};
use dt_source::{CalmSource, MemSource};
use std::test::Fail;

/// The word of `addi x1, x0, 5`, the low byte first.
const ADDI: [u8; 4] = [0x93, 0x00, 0x50, 0x00];

#[test]
fn an_image_is_read_in_any_pieces(rt: HostRuntime) -> Result<(), Fail> {
    for piece in [1, 20, 64] {
        let bytes = Vec::from_slice(rt.alloc(), &ADDI)?;
        let mut source = MemSource::new(bytes, piece, Vec::new(rt.alloc()));
        let Ok(image) = load(rt.alloc(), &mut source) else {
            panic!(rt; "pieces of {piece}");
        };
        for (at, wanted) in [(0, 0x93), (1, 0x00), (2, 0x50), (3, 0x00), (4, 0x00)] {
            assert_eq!(rt; image.byte(RAM_START + at), wanted, "pieces of {piece}");
        }
    }
    Ok(())
}

#[test]
fn a_failed_read_is_answered(rt: HostRuntime) -> Result<(), Fail> {
    for call in 0..5 {
        let bytes = Vec::from_slice(rt.alloc(), &ADDI)?;
        let mut source = MemSource::new(bytes, 1, vec![in rt.alloc(); call]?);
        let refusal = load(rt.alloc(), &mut source).err();
        assert_eq!(rt; refusal, Some(ImageRefusal::ReadFault), "call {call}");
    }
    Ok(())
}

#[test]
fn an_image_may_be_too_long(rt: HostRuntime) -> Result<(), Fail> {
    let bytes = vec![in rt.alloc(); 0xa5u8; IMAGE_LIMIT]?;
    let Ok(image) = load(rt.alloc(), &mut CalmSource::new(bytes)) else {
        panic!(rt; "an image of the greatest length");
    };
    assert_eq!(rt; image.byte(RAM_START + 16_777_215), 0xa5);
    let bytes = vec![in rt.alloc(); 0xa5u8; IMAGE_LIMIT + 1]?;
    let refusal = load(rt.alloc(), &mut CalmSource::new(bytes)).err();
    assert_eq!(rt; refusal, Some(ImageRefusal::TooLong));
    Ok(())
}
