use crate::Windows;
use dt_record::Key;
use dt_step::Planned;
use std::alloc::{AllocError, Global};
use std::test::Fail;

const ALL: Planned = Planned::FencesPages {
    va: None,
    all: true,
};

const SPACE: Planned = Planned::FencesPages {
    va: None,
    all: false,
};

const STORE: Planned = Planned::NeedsStore {
    va: 0x8000_3000,
    width: 8,
    value: 1,
};

fn page(va: u64) -> Planned {
    Planned::FencesPages {
        va: Some(va),
        all: false,
    }
}

/// The key of the hart's record with this number, one record a cycle.
fn key(seq: u32) -> Key {
    Key {
        stamp: u64::from(seq),
        hart: 2,
        seq,
    }
}

/// The numbers of the last fences, or 0: for instructions, for a page that is fenced alone and for
/// one that is not.
fn kept(windows: &Windows) -> (u32, u32, u32) {
    (
        windows.instructions().map_or(0, |k| k.seq),
        windows.page(0x8000_3abc).map_or(0, |k| k.seq),
        windows.page(0x8000_4000).map_or(0, |k| k.seq),
    )
}

#[test]
fn the_last_fence_counts_for_what_it_covers(rt: HostRuntime) -> Result<(), Fail> {
    let mut windows = Windows::new(rt.alloc());
    assert_eq!(rt; kept(&windows), (0, 0, 0));
    for (plan, seq, after) in [
        (Planned::FenceI, 3, (3, 0, 0)),
        (page(0x8000_3008), 4, (3, 4, 0)),
        (SPACE, 5, (3, 4, 0)),
        (STORE, 6, (3, 4, 0)),
        (page(0x8000_3fff), 7, (3, 7, 0)),
        (ALL, 8, (3, 8, 8)),
        (page(0x8000_4000), 9, (3, 8, 9)),
        (Planned::FenceI, 10, (10, 8, 9)),
        (page(0xffff_ffff_ffff_ffff), 11, (10, 8, 9)),
    ] {
        windows.take(plan, key(seq))?;
        assert_eq!(rt; kept(&windows), after, "after {plan:?}");
    }
    assert_eq!(rt; windows.page(0xffff_ffff_ffff_f000), Some(key(11)));
    assert_eq!(rt; windows.all(), Some(key(8)));
    Ok(())
}

#[test]
fn a_fence_counts_again_after_an_undo(rt: HostRuntime) -> Result<(), Fail> {
    let mut windows = Windows::new(rt.alloc());
    windows.take(page(0x8000_3008), key(4))?;
    let m = windows.mark();
    windows.take(ALL, key(5))?;
    assert_eq!(rt; kept(&windows), (0, 5, 5));
    windows.take(page(0x8000_4000), key(6))?;
    let copy = windows.copy(rt.alloc())?;
    windows.undo_to(m);
    assert_eq!(rt; kept(&windows), (0, 4, 0));
    windows.forget(m);
    windows.undo_to(m);
    assert_eq!(rt; kept(&windows), (0, 4, 0));
    assert_eq!(rt; kept(&copy), (0, 5, 6));
    Ok(())
}

/// The same fences, made again from their keys.
fn again(alloc: Global, windows: &Windows) -> Result<Windows, AllocError> {
    let pages = windows.pages(alloc)?;
    Windows::of(alloc, windows.instructions(), windows.all(), &pages)
}

#[test]
fn fences_are_made_again_from_their_keys(rt: HostRuntime) -> Result<(), Fail> {
    let mut windows = Windows::new(rt.alloc());
    for (plan, seq) in [
        (page(0x8000_4000), 1),
        (ALL, 2),
        (page(0x8000_3008), 3),
        (Planned::FenceI, 4),
    ] {
        windows.take(plan, key(seq))?;
    }
    let made = again(rt.alloc(), &windows)?;
    assert_eq!(rt; kept(&made), (4, 3, 2));
    assert_eq!(rt;
        made.pages(rt.alloc())?.as_slice(),
        [(0x8_0003, key(3)), (0x8_0004, key(1))].as_slice()
    );
    Ok(())
}
