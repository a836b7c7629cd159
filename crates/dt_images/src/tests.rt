use crate::{random_image, spin_image};
use dt_record::Image;
use std::process::Abort;
use std::test::Fail;

/// The hash FNV-1a of 64 bits.
fn hash_of(bytes: &[u8]) -> u64 {
    let mut hash: u64 = 0xcbf2_9ce4_8422_2325;
    for byte in bytes {
        hash = (hash ^ u64::from(*byte)).wrapping_mul(0x100_0000_01b3);
    }
    hash
}

/// The word at an offset.
fn word_at(rt: &impl Abort, image: &Image, offset: usize) -> u32 {
    let bytes = image.bytes();
    assert!(rt; offset < bytes.len() && bytes.len() - offset >= 4);
    let mut word = [0; 4];
    word.copy_from_slice(&bytes[offset..offset + 4]);
    u32::from_le_bytes(word)
}

/// The images that another program makes of these seeds, by their hashes, and their ends.
#[test]
fn random_images_of_seeds(rt: HostRuntime) -> Result<(), Fail> {
    for (seed, hash) in [
        (0, 0xa15f_04ce_6f95_4cb7),
        (1, 0xb605_b8f0_4f2d_0f88),
        (2, 0x97c6_30ed_61d3_c995),
        (u64::MAX, 0x8b5f_462b_6817_bc5e),
    ] {
        let image = random_image(rt.alloc(), seed)?;
        assert_eq!(rt; image.bytes().len(), 4096);
        assert_eq!(rt; word_at(&rt, &image, 0), 0x0001_0f17);
        assert_eq!(rt; word_at(&rt, &image, 4092), 0x808f_f06f);
        assert_eq!(rt; hash_of(image.bytes()), hash, "{seed}");
    }
    Ok(())
}

/// The image that another program makes, by its hash, and some words of an assembler.
#[test]
fn the_image_of_a_lock(rt: HostRuntime) -> Result<(), Fail> {
    let image = spin_image(rt.alloc())?;
    assert_eq!(rt; image.bytes().len(), 12288);
    for (offset, word) in [
        (0, 0x0000_0297),
        (0x50, 0x3020_0073),
        (0x80, 0x0cd6_272f),
        (0x9c, 0xfe5f_f06f),
        (0x100, 0xb000_2873),
        (0x2010, 0x2000_00cf),
        (0x2014, 0),
    ] {
        assert_eq!(rt; word_at(&rt, &image, offset), word, "{offset:x}");
    }
    assert_eq!(rt; hash_of(image.bytes()), 0x5508_a11d_a9d3_3b91);
    Ok(())
}
