ghost use Rattle.std.specs.Prelude.{◌≡◌};

use crate::{
    Block, Body, Image, Key, Kind, Known, KnownByte, Next, Probes, Reason, Record, Records, Retire,
    Steps, Stop, Version, Write, is_in_ram, is_ram_line, key_of, kind_of, lawful, tag_of, write_of,
    writes_memory,
};
use std::test::Fail;

const ADDI: Retire = Retire {
    pc: 0x8000_0000,
    bits: 0x0050_0093,
    value: 5,
};

const HALF: Retire = Retire {
    pc: 0x8000_0000,
    bits: 0x0001_0001,
    value: 0,
};

fn at_ten(body: Body) -> Record {
    Record {
        stamp: 10,
        hart: 1,
        body,
    }
}

fn atomic(paddr: u64, width: u8, wrote: bool, new: u64) -> Record {
    at_ten(Body::Atomic {
        retire: ADDI,
        paddr,
        width,
        wrote,
        new,
    })
}

fn drain(line: u64, mask: u64, count: u16, first: u8) -> Record {
    let mut bytes = [0; 64];
    bytes[0] = first;
    at_ten(Body::Drain {
        line,
        mask,
        count,
        bytes,
    })
}

fn trap(bits: u32, cause: u64) -> Record {
    at_ten(Body::Trap {
        pc: 0,
        bits,
        cause,
        tval: 0,
    })
}

fn load(at: u64) -> Record {
    at_ten(Body::Load {
        retire: ADDI,
        at,
        paddr: 0,
    })
}

#[test]
fn bounds_of_fields_hold(rt: HostRuntime) {
    let interrupt = 1 << 63;
    let cases = [
        (at_ten(Body::Commit { retire: ADDI }), true),
        (at_ten(Body::Commit { retire: HALF }), false),
        (load(10), true),
        (load(11), false),
        (atomic(0x8000_0008, 8, true, 1 << 32), true),
        (atomic(0x8000_0004, 8, true, 0), false),
        (atomic(0x8000_0004, 4, true, 1 << 32), false),
        (atomic(0x8000_0004, 4, false, 1), false),
        (atomic(0x8400_0000, 8, false, 0), false),
        (drain(0x8000_0040, 1, 1, 7), true),
        (drain(0x8000_0040, 2, 1, 7), false),
        (drain(0x8000_0048, 1, 1, 7), false),
        (drain(0x8000_0040, 1, 0, 7), false),
        (trap(0x0001_0001, 12), true),
        (trap(0x0001_0001, 2), false),
        (trap(1, interrupt + 7), false),
        (trap(0, interrupt + 7), true),
        (at_ten(Body::Regs { pc: 4, x: [7; 31] }), true),
        (
            at_ten(Body::Csrs {
                mode: 2,
                v: [7; 17],
            }),
            false,
        ),
    ];
    for (event, want) in cases {
        assert_eq!(rt; lawful(&event), want, "{event:?}");
        assert_eq!(rt; event.lent().record(), event);
    }
    let far = Record {
        stamp: 0,
        hart: 8,
        body: Body::Beat,
    };
    assert!(rt; !lawful(&far));
}

#[test]
fn an_atomic_writes_its_word(rt: HostRuntime) {
    let event = atomic(0x8000_0104, 4, true, 0x0403_0201);
    let mut bytes = [0; 64];
    bytes[4] = 1;
    bytes[5] = 2;
    bytes[6] = 3;
    bytes[7] = 4;
    let want = Write {
        key: Key {
            stamp: 10,
            hart: 1,
            seq: 3,
        },
        line: 0x8000_0100,
        mask: 0xf0,
        bytes,
    };
    assert!(rt; lawful(&event));
    assert_eq!(rt; write_of(&event, 3), Some(want));
    assert_eq!(rt; tag_of(&event.body), 7);
    assert_eq!(rt; Reason::Value.number(), 8);
    assert_eq!(rt; Reason::Value.name(), "Value");
}

#[test]
fn an_image_ends_in_zeros(rt: HostRuntime) -> Result<(), Fail> {
    let image = Image::of(vec![in rt.alloc(); 1, 2]?);
    let same = image.copy()?;
    assert_eq!(rt; same.byte(0x8000_0001), 2);
    assert_eq!(rt; same.byte(0x83ff_ffff), 0);
    Ok(())
}

#[test]
fn a_drain_has_a_key_and_a_kind(rt: HostRuntime) {
    let event = drain(0x8000_0040, 1, 1, 7);
    let key = Key {
        stamp: 10,
        hart: 1,
        seq: 3,
    };
    assert_eq!(rt; key_of(&event, 3), key);
    assert_eq!(rt; kind_of(&event.body), Kind::Drain);
    assert_eq!(rt; Kind::with_tag(8), Some(Kind::Drain));
    assert_eq!(rt; Kind::Drain.tag(), 8);
    assert!(rt; writes_memory(&event));
    assert!(rt; is_ram_line(0x8000_0040) && !is_in_ram(0x8400_0000));
    assert_eq!(rt; Version::Two.number(), 2);
}

#[test]
fn known_bytes_are_told_apart(rt: HostRuntime) -> Result<(), Fail> {
    let key = Key {
        stamp: 1,
        hart: 0,
        seq: 0,
    };
    let at = |addr: u64| KnownByte { addr, key };
    let known = Known::of(vec![in rt.alloc(); at(0x8000_0000)]?);
    let other = Known::of(vec![in rt.alloc(); at(0x8000_0001)]?);
    assert!(rt; known.is_same(&known) && !known.is_same(&other));
    let mut steps: Steps<()> = Steps::new();
    steps.tick();
    assert_eq!(rt; steps.taken(), 1);
    Ok(())
}

/// Beats of one hart, one after another.
#[derive(Drop)]
struct Beats {
    opened: bool,
    to_come: u64,
    count: u64,
    ended: Option<Next>,
}

impl Probes for Beats {
    ghost use Rattle.std.specs.Prelude.{false, None, Some, if◌then◌else◌};

    ghost progress = { λ s. record {
      harts = if s.opened then Some 1 else None;
      wide = false;
      stamps = λ _. 0;
      events = s.count;
      writes = 0;
      ended = s.ended;
    } };

    ghost left = { λ _. None };

    ghost faults = { λ _. 0 };

    fn is_over(&self) -> bool {
        self.ended.is_some()
    }

    fn next(&mut self) -> Next {
        if !self.opened {
            self.opened = true;
            self.count = 0;
            return Next::Header {
                harts: 1,
                wide: false,
            };
        }
        if self.count < 4_194_304 && self.to_come > 0 {
            self.count += 1;
            self.to_come -= 1;
            return Next::Event(Record {
                stamp: 0,
                hart: 0,
                body: Body::Beat,
            });
        }
        let last = Next::End { count: self.count };
        self.ended = Some(last);
        last
    }
}

#[test]
fn a_block_takes_records_up_to_the_end(rt: HostRuntime) -> Result<(), Fail> {
    let mut beats = Beats {
        opened: false,
        to_come: 3,
        count: 0,
        ended: None,
    };
    let mut block = Block::new(rt.alloc())?;
    let Next::Header { .. } = beats.next() else {
        panic!(rt; "no header");
    };
    let mut lent = &mut beats;
    assert_eq!(rt; Probes::fill(&mut lent, &mut block), Stop::End { count: 3 });
    assert_eq!(rt; block.len(), 3);
    assert_eq!(rt; block.get(2).hart, 0);
    Ok(())
}

#[test]
fn records_that_are_kept_are_lent_again(rt: HostRuntime) -> Result<(), Fail> {
    let mut kept = Records::new(rt.alloc());
    for stamp in [3, 5] {
        kept.push(&Record {
            stamp,
            hart: 1,
            body: Body::Beat,
        })?;
    }
    assert_eq!(rt; kept.len(), 2);
    assert_eq!(rt; (kept.get(0).stamp, kept.get(1).stamp), (3, 5));
    let last = kept.part(1, 2);
    assert_eq!(rt; (last.len(), last.get(0).stamp), (1, 5));
    Ok(())
}
