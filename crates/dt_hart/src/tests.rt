ghost use Rattle.std.specs.Prelude.{OnOk};
ghost use Rattle.dt_hart.specs.Marks.{KeepsMarks};

use crate::{Hart, is_placed, known_at_next, marks_go_on};
use dt_record::{Body, Key, Origin, RECORD_LIMIT, Record, Retire, Sources, lawful};
use dt_reference::can_follow;
use std::process::Abort;
use std::test::Fail;

const LINE: u64 = 0x8000_0100;

fn commit(pc: u64, bits: u32, value: u64) -> Body {
    let retire = Retire { pc, bits, value };
    Body::Commit { retire }
}

/// A load of 7 from the start of the line.
fn load(pc: u64, at: u64) -> Body {
    let retire = Retire {
        pc,
        bits: 0x1002_b403,
        value: 7,
    };
    Body::Load {
        retire,
        at,
        paddr: LINE,
    }
}

fn drain() -> Body {
    let mut bytes = [0; 64];
    bytes[0] = 7;
    Body::Drain {
        line: LINE,
        mask: 0xff,
        count: 1,
        bytes,
    }
}

/// An atomic on the double at the start of the line.
fn atomic(bits: u32, value: u64, wrote: bool, new: u64) -> Body {
    let retire = Retire {
        pc: 0x8000_0000,
        bits,
        value,
    };
    Body::Atomic {
        retire,
        paddr: LINE,
        width: 8,
        wrote,
        new,
    }
}

fn key(stamp: u64, hart: u8, seq: u32) -> Key {
    Key { stamp, hart, seq }
}

fn everywhere(from: Origin) -> Sources {
    Sources {
        count: 8,
        from: [from; 8],
    }
}

const NONE: Sources = Sources {
    count: 0,
    from: [Origin::Image; 8],
};

/// Takes a record of the hart that may be next.
fn take(
    rt: &impl Abort,
    hart: &mut Hart,
    stamp: u64,
    body: Body,
    sources: Sources,
) -> Result<(), Fail> {
    let event = Record {
        stamp,
        hart: hart.number(),
        body,
    };
    assert!(rt; lawful(&event));
    assert!(rt; is_placed(&event));
    assert!(rt; hart.stamp() <= stamp && hart.seq() < RECORD_LIMIT);
    assert!(rt; can_follow(hart.arch(), &event));
    hart.take(&event, sources)?;
    Ok(())
}

#[test]
fn a_store_is_forwarded_and_then_drained(rt: HostRuntime) -> Result<(), Fail> {
    known_at_next();
    let mut hart = Hart::new(rt.alloc(), 0, false);
    let store = Body::Store {
        pc: 0x8000_0008,
        bits: 0x1072_b023,
        paddr: LINE,
        value: 7,
    };
    let drained = key(5, 0, 4);
    for (stamp, body, sources) in [
        (1, commit(0x8000_0000, 0x0000_0297, 0x8000_0000), NONE),
        (2, commit(0x8000_0004, 0x0070_0393, 7), NONE),
        (3, store, NONE),
        (4, load(0x8000_000c, 4), everywhere(Origin::Store(2))),
        (5, drain(), NONE),
        (6, load(0x8000_0010, 6), everywhere(Origin::Write(drained))),
    ] {
        take(&rt, &mut hart, stamp, body, sources)?;
        let known = (stamp >= 5).then_some(drained);
        assert_eq!(rt; hart.local().newest(LINE + 7), known);
        assert_eq!(rt;
            hart.stores().forward(LINE, stamp).is_some(),
            stamp == 3 || stamp == 4
        );
    }
    assert_eq!(rt; (hart.seq(), hart.stamp(), hart.floor()), (6, 6, 0));
    assert_eq!(rt; (hart.arch().pc, hart.arch().x[8]), (0x8000_0014, 7));
    Ok(())
}

#[test]
fn a_load_notes_the_write_that_it_read(rt: HostRuntime) -> Result<(), Fail> {
    let mut hart = Hart::new(rt.alloc(), 1, false);
    let read = key(10, 0, 5);
    for (stamp, body, sources) in [
        (1, commit(0x8000_0000, 0x0000_0297, 0x8000_0000), NONE),
        (12, load(0x8000_0004, 12), everywhere(Origin::Write(read))),
    ] {
        take(&rt, &mut hart, stamp, body, sources)?;
    }
    for (addr, known) in [(LINE, Some(read)), (LINE + 7, Some(read)), (LINE + 8, None)] {
        assert_eq!(rt; hart.local().newest(addr), known);
    }
    Ok(())
}

/// An LR and a failed SC with aq, an AMO without, and a fence of reads before reads.
#[test]
fn atomics_order_note_and_reserve(rt: HostRuntime) -> Result<(), Fail> {
    let mut hart = Hart::new(rt.alloc(), 1, false);
    let trap = Body::Trap {
        pc: 0x8000_0004,
        bits: 0x73,
        cause: 11,
        tval: 0,
    };
    let lr = atomic(0x1405_35af, 0, false, 0);
    let sc = atomic(0x1cc5_35af, 1, false, 0);
    let add = atomic(0x00c5_35af, 0, true, 7);
    let fence = commit(0x8000_0000, 0x0330_000f, 0);
    let other = key(5, 0, 3);
    let held = Some((LINE, key(10, 1, 0)));
    let added = key(13, 1, 3);
    for (stamp, body, from, floor, reserved, known) in [
        (10, lr, Origin::Write(other), 10, held, other),
        (11, trap, Origin::Image, 10, held, other),
        (12, sc, Origin::Image, 10, None, other),
        (13, add, Origin::Image, 10, None, added),
        (14, fence, Origin::Image, 13, None, added),
    ] {
        take(&rt, &mut hart, stamp, body, everywhere(from))?;
        assert_eq!(rt; hart.floor(), floor, "{stamp}");
        assert_eq!(rt; hart.reserved(), reserved, "{stamp}");
        assert_eq!(rt; hart.local().newest(LINE), Some(known), "{stamp}");
    }
    Ok(())
}

/// A fence of instructions, of the page of address 0, of all pages, and of accesses alone.
#[test]
fn fences_begin_windows(rt: HostRuntime) -> Result<(), Fail> {
    let mut hart = Hart::new(rt.alloc(), 0, false);
    let cycle = |fence: Option<Key>| fence.map_or(0, |k| k.stamp);
    for (stamp, bits, instructions, page, other) in [
        (3, 0x0000_100f, 3, 0, 0),
        (4, 0x1202_8073, 3, 4, 0),
        (5, 0x1200_0073, 3, 5, 5),
        (6, 0x0330_000f, 3, 5, 5),
    ] {
        let body = commit(0x8000_0000, bits, 0);
        take(&rt, &mut hart, stamp, body, NONE)?;
        let windows = hart.windows();
        let kept = (
            cycle(windows.instructions()),
            cycle(windows.page(8)),
            cycle(windows.page(4096)),
        );
        assert_eq!(rt; kept, (instructions, page, other), "{bits:x}");
    }
    Ok(())
}

/// The cycles of the last fences that cover a byte of page 0 and one of page 1.
fn fenced(hart: &Hart) -> (u64, u64) {
    let windows = hart.windows();
    (cycle(windows.page(8)), cycle(windows.page(4096)))
}

fn cycle(fence: Option<Key>) -> u64 {
    fence.map_or(0, |k| k.stamp)
}

/// Takes a fence.
fn take_fence(rt: &impl Abort, hart: &mut Hart, stamp: u64, bits: u32) -> Result<(), Fail>
    ensures { OnOk result (KeepsMarks hart.old hart.new) }
{
    let event = Record {
        stamp,
        hart: hart.number(),
        body: commit(0x8000_0000, bits, 0),
    };
    assert!(rt; lawful(&event) && is_placed(&event));
    assert!(rt; hart.stamp() <= stamp && hart.seq() < RECORD_LIMIT);
    assert!(rt; can_follow(hart.arch(), &event));
    hart.take(&event, NONE)?;
    Ok(())
}

/// A fence of the page of address 0, and one of all pages that is undone.
#[test]
fn a_fence_counts_again_after_an_undo(rt: HostRuntime) -> Result<(), Fail> {
    marks_go_on();
    let mut hart = Hart::new(rt.alloc(), 0, false);
    take_fence(&rt, &mut hart, 4, 0x1202_8073)?;
    let m = hart.mark();
    take_fence(&rt, &mut hart, 5, 0x1200_0073)?;
    assert_eq!(rt; fenced(&hart), (5, 5));
    let copy = hart.copy(rt.alloc())?;
    hart.undo_to(m);
    assert_eq!(rt; fenced(&hart), (4, 0));
    assert_eq!(rt; (hart.seq(), hart.stamp()), (1, 4));
    hart.forget(m);
    assert_eq!(rt; fenced(&hart), (4, 0));
    assert_eq!(rt; (fenced(&copy), copy.seq()), ((5, 5), 2));
    Ok(())
}

/// A hart of which no record came yet, its data, and the hart of these.
#[test]
fn data_of_a_new_hart(rt: HostRuntime) -> Result<(), Fail> {
    let hart = Hart::new(rt.alloc(), 1, true);
    let d = hart.state(rt.alloc())?;
    assert_eq!(rt; (d.pc, d.mode, d.known.items().len()), (0x8000_0000, 3, 0));
    assert!(rt; d.seq == 0 && hart.arch().csrs.wide && hart.seq() <= RECORD_LIMIT);
    let again = Hart::of_state(rt.alloc(), 1, true, &d, &[])?;
    assert_eq!(rt; (again.seq(), again.number()), (0, 1));
    Ok(())
}
