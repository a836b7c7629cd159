ghost use Rattle.std.specs.Prelude.{IsTrue};
ghost use Rattle.dt_record.specs.Lawful.{is_ram_line};
ghost use Rattle.dt_local.specs.Marks.{KeepsMarks};

use crate::Local;
use dt_record::{Key, KnownByte};
use std::alloc::AllocError;
use std::test::Fail;

fn key(stamp: u64, hart: u8, seq: u32) -> Key {
    Key { stamp, hart, seq }
}

fn noted(local: &mut Local, line: u64, mask: u64, keys: &[Key; 64]) -> Result<(), AllocError>
    requires { IsTrue (is_ram_line line) }
    ensures { KeepsMarks local.old local.new }
{
    local.reserve(line, mask)?;
    local.note(line, mask, keys);
    Ok(())
}

#[test]
fn local_memory_keeps_the_greater_key(rt: HostRuntime) -> Result<(), Fail> {
    let mut local = Local::new(rt.alloc());
    let mut keys = [key(10, 1, 5); 64];
    noted(&mut local, 0x8000_0000, 0b11, &keys)?;
    keys[2] = key(10, 0, 9);
    noted(&mut local, 0x8000_0000, 0b110, &keys)?;
    keys[1] = key(10, 1, 4);
    keys[63] = key(9, 7, 7);
    noted(&mut local, 0x8000_0000, 0b10, &keys)?;
    noted(&mut local, 0x83ff_ffc0, 1 << 63, &keys)?;
    local.reserve(0x8000_0000, u64::MAX)?;
    for (addr, newest) in [
        (0x8000_0000, Some(key(10, 1, 5))),
        (0x8000_0001, Some(key(10, 1, 5))),
        (0x8000_0002, Some(key(10, 0, 9))),
        (0x8000_0003, None),
        (0x8000_003f, None),
        (0x8000_0040, None),
        (0x83ff_fffe, None),
        (0x83ff_ffff, Some(key(9, 7, 7))),
    ] {
        assert_eq!(rt; local.newest(addr), newest, "{addr:x}");
    }
    noted(&mut local, 0x8000_0000, 0b100, &[key(10, 0, 10); 64])?;
    assert_eq!(rt; local.newest(0x8000_0002), Some(key(10, 0, 10)));
    Ok(())
}

#[test]
fn marks_are_undone_to_and_forgotten(rt: HostRuntime) -> Result<(), Fail> {
    let mut local = Local::new(rt.alloc());
    noted(&mut local, 0x8000_0000, 0b11, &[key(10, 1, 5); 64])?;
    let first = local.mark();
    noted(&mut local, 0x8000_0000, u64::MAX, &[key(12, 1, 6); 64])?;
    let second = local.mark();
    noted(&mut local, 0x8000_0040, 1, &[key(13, 1, 7); 64])?;
    assert_eq!(rt; local.newest(0x8000_0040), Some(key(13, 1, 7)));
    local.undo_to(second);
    assert_eq!(rt; local.newest(0x8000_0040), None);
    assert_eq!(rt; local.newest(0x8000_003f), Some(key(12, 1, 6)));
    let copy = local.copy(rt.alloc())?;
    local.undo_to(first);
    for (addr, newest) in [(0x8000_0001, Some(key(10, 1, 5))), (0x8000_003f, None)] {
        assert_eq!(rt; local.newest(addr), newest, "{addr:x}");
    }
    local.forget(first);
    local.undo_to(first);
    assert_eq!(rt; local.newest(0x8000_0000), Some(key(10, 1, 5)));
    assert_eq!(rt; copy.newest(0x8000_003f), Some(key(12, 1, 6)));
    assert_eq!(rt; copy.newest(0x8000_0040), None);
    Ok(())
}

#[test]
fn pairs_stand_by_address(rt: HostRuntime) -> Result<(), Fail> {
    let mut local = Local::new(rt.alloc());
    local.reserve(0x8000_0040, u64::MAX)?;
    assert!(rt; local.pairs(rt.alloc())?.items().is_empty());
    noted(&mut local, 0x83ff_ffc0, 1 << 63, &[key(9, 7, 7); 64])?;
    noted(
        &mut local,
        0x8000_0000,
        0b1000_0000_0110,
        &[key(10, 1, 5); 64],
    )?;
    noted(&mut local, 0x8000_0000, 0b101, &[key(10, 1, 6); 64])?;
    let at = |addr: u64, key: Key| KnownByte { addr, key };
    assert_eq!(rt;
        local.pairs(rt.alloc())?.items(),
        [
            at(0x8000_0000, key(10, 1, 6)),
            at(0x8000_0001, key(10, 1, 5)),
            at(0x8000_0002, key(10, 1, 6)),
            at(0x8000_000b, key(10, 1, 5)),
            at(0x83ff_ffff, key(9, 7, 7)),
        ]
        .as_slice()
    );
    Ok(())
}
