ghost use Rattle.dt_stores.specs.Marks.{KeepsMarks};

use crate::{
    DrainAnswer, Forward, OwnStore, Stores, Which, atomics_keep_stores, drains_stay_below,
    loads_keep_stores, marks_stay_live, stores_go_on,
};
use dt_record::Key;
use std::test::Fail;

const LINE: u64 = 0x8000_0100;

const NEXT_LINE: u64 = 0x8000_0140;

const FIRST: OwnStore = OwnStore {
    seq: 0,
    addr: 0x8000_0100,
    width: 4,
    value: 0x0707_0707,
};

const DOUBLE: OwnStore = OwnStore {
    seq: 2,
    addr: 0x8000_0100,
    width: 8,
    value: 0x1111_1111_1111_1111,
};

const UPPER_WORD: OwnStore = OwnStore {
    seq: 4,
    addr: 0x8000_0104,
    width: 4,
    value: 0x2222_2222,
};

const NEXT: OwnStore = OwnStore {
    seq: 5,
    addr: 0x8000_0140,
    width: 8,
    value: 7,
};

const WORD: OwnStore = OwnStore {
    seq: 1,
    addr: 0x8000_0100,
    width: 4,
    value: 0x0403_0201,
};

const BYTE: OwnStore = OwnStore {
    seq: 3,
    addr: 0x8000_0101,
    width: 1,
    value: 0x99,
};

fn key(stamp: u64) -> Key {
    Key {
        stamp,
        hart: 0,
        seq: 9,
    }
}

fn took(mask: u64, low: u8, high: u8) -> DrainAnswer {
    let mut bytes = [0; 64];
    for i in 0..4 {
        bytes[i] = low;
        bytes[i + 4] = high;
    }
    DrainAnswer::Took { mask, bytes }
}

fn forward(seq: u32, byte: u8, drained: Option<Key>) -> Option<Forward> {
    Some(Forward { seq, byte, drained })
}

/// A drain, where its key is above those before it.
fn drain(stores: &mut Stores, key: Key, line: u64, count: u16) -> Option<DrainAnswer>
    ensures { KeepsMarks stores.old stores.new }
{
    if stores.can_drain(key) {
        Some(stores.drain(key, line, count))
    } else {
        None
    }
}

#[test]
fn drains_singly_merged_and_never_too_many(rt: HostRuntime) -> Result<(), Fail> {
    let mut stores = Stores::new(rt.alloc());
    stores.commit(DOUBLE)?;
    stores.commit(UPPER_WORD)?;
    assert_eq!(rt; stores.would_drain(LINE, 2), took(0xff, 0x11, 0x22));
    assert_eq!(rt;
        drain(&mut stores, key(6), LINE, 3),
        Some(DrainAnswer::Few { held: 2 })
    );
    assert_eq!(rt;
        drain(&mut stores, key(6), LINE, 1),
        Some(took(0xff, 0x11, 0x11))
    );
    assert_eq!(rt;
        drain(&mut stores, key(7), LINE, 1),
        Some(took(0xf0, 0, 0x22))
    );
    assert_eq!(rt; stores.would_drain(LINE, 1), DrainAnswer::Few { held: 0 });
    Ok(())
}

#[test]
fn drains_two_at_once(rt: HostRuntime) -> Result<(), Fail> {
    let mut stores = Stores::new(rt.alloc());
    stores.commit(DOUBLE)?;
    stores.commit(UPPER_WORD)?;
    assert_eq!(rt;
        drain(&mut stores, key(6), LINE, 2),
        Some(took(0xff, 0x11, 0x22))
    );
    assert_eq!(rt; stores.oldest(Which::All, 6), None);
    Ok(())
}

#[test]
fn forwards_the_youngest_that_no_drain_has_taken_yet(rt: HostRuntime) -> Result<(), Fail> {
    let mut stores = Stores::new(rt.alloc());
    stores.commit(WORD)?;
    stores.commit(BYTE)?;
    assert_eq!(rt; stores.forward(LINE, 5), forward(1, 1, None));
    assert_eq!(rt; stores.forward(LINE + 1, 5), forward(3, 0x99, None));
    assert_eq!(rt; stores.forward(LINE + 3, 5), forward(1, 4, None));
    assert_eq!(rt; stores.forward(LINE + 4, 5), None);
    assert_ne!(rt; drain(&mut stores, key(10), LINE, 1), None);
    assert_eq!(rt; stores.forward(LINE, 9), forward(1, 1, Some(key(10))));
    assert_eq!(rt; stores.forward(LINE, 10), None);
    assert_eq!(rt; stores.forward(LINE + 1, 10), forward(3, 0x99, None));
    Ok(())
}

#[test]
fn a_fence_bars_the_younger_line(rt: HostRuntime) -> Result<(), Fail> {
    let mut stores = Stores::new(rt.alloc());
    stores.commit(DOUBLE)?;
    stores.fence(true, false);
    stores.commit(NEXT)?;
    assert_eq!(rt;
        drain(&mut stores, key(6), NEXT_LINE, 2),
        Some(DrainAnswer::Few { held: 1 })
    );
    assert_eq!(rt;
        drain(&mut stores, key(6), NEXT_LINE, 1),
        Some(DrainAnswer::Barred { seq: 2 })
    );
    assert_eq!(rt; stores.oldest(Which::BeforeWw, 6), Some(2));
    assert_eq!(rt; stores.oldest(Which::BeforeWr, 6), None);
    assert_eq!(rt;
        drain(&mut stores, key(6), LINE, 1),
        Some(took(0xff, 0x11, 0x11))
    );
    assert_eq!(rt; stores.oldest(Which::All, 5), Some(2));
    assert_eq!(rt; stores.oldest(Which::All, 6), Some(5));
    assert_eq!(rt; stores.oldest(Which::Line(LINE), 6), None);
    assert_ne!(rt;
        drain(&mut stores, key(7), NEXT_LINE, 1),
        Some(DrainAnswer::OutOfMemory)
    );
    Ok(())
}

#[test]
fn marks_are_undone_to_and_forgotten(rt: HostRuntime) -> Result<(), Fail> {
    let mut stores = Stores::new(rt.alloc());
    stores.commit(FIRST)?;
    let m = stores.mark();
    assert_eq!(rt; drain(&mut stores, key(10), LINE, 1), Some(took(0xf, 7, 0)));
    stores.commit(NEXT)?;
    assert_eq!(rt; stores.forward(LINE, 10), None);
    let copy = stores.copy(rt.alloc())?;
    stores.undo_to(m);
    assert_eq!(rt; stores.forward(LINE, 10), forward(0, 7, None));
    assert_eq!(rt; stores.oldest(Which::All, 10), Some(0));
    assert_eq!(rt; stores.forward(NEXT_LINE, 10), None);
    assert_ne!(rt; drain(&mut stores, key(11), LINE, 1), None);
    stores.forget(m);
    assert_eq!(rt; stores.oldest(Which::All, 11), None);
    stores.undo_to(m);
    assert_eq!(rt; stores.would_drain(LINE, 1), took(0xf, 7, 0));
    assert_eq!(rt; copy.forward(NEXT_LINE, 10), forward(5, 7, None));
    assert_eq!(rt; copy.oldest(Which::Line(LINE), 10), None);
    Ok(())
}

#[test]
fn laws_are_called() {
    loads_keep_stores();
    atomics_keep_stores();
    stores_go_on();
    drains_stay_below();
    marks_stay_live();
}
