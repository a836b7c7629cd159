use crate::{decode2, encode2, one_short_spelling, short_front, short_read_back};
use dt_record::{Body, Record, Retire, lawful};
use dt_record_bytes::Decoded;
use std::alloc::Global;
use std::process::Abort;
use std::test::Fail;

const ADDI: Retire = Retire {
    pc: 0x8000_0000,
    bits: 0x0050_0093,
    value: 5,
};

/// Hart 0 commits addi x1,x0,5 at the start of RAM in cycle 1, without the value.
const COMMIT: [u8; 13] = [
    0x01, 0x00, 0x01, 0x07, 0x80, 0x80, 0x80, 0x80, 0x08, 0x93, 0x81, 0xc0, 0x02,
];

/// The largest number that the bytes of a number can spell.
const GREATEST: [u8; 10] = [0xff, 0xff, 0xff, 0xff, 0xff, 0xff, 0xff, 0xff, 0xff, 0x01];

fn at_nine(body: Body) -> Record {
    Record {
        stamp: 9,
        hart: 7,
        body,
    }
}

fn commit() -> Record {
    Record {
        stamp: 1,
        hart: 0,
        body: Body::Commit { retire: ADDI },
    }
}

fn last_trap() -> Record {
    Record {
        stamp: u64::MAX,
        hart: 7,
        body: Body::Trap {
            pc: u64::MAX,
            bits: 0,
            cause: u64::MAX,
            tval: u64::MAX,
        },
    }
}

fn line_with(first: u8, third: u8) -> [u8; 64] {
    let mut bytes = [0; 64];
    bytes[0] = first;
    bytes[2] = third;
    bytes
}

fn drain() -> Record {
    at_nine(Body::Drain {
        line: 0x8000_0000,
        mask: 5,
        count: 1,
        bytes: line_with(0xaa, 0xbb),
    })
}

fn atomic() -> Record {
    at_nine(Body::Atomic {
        retire: Retire {
            pc: 0,
            bits: 3,
            value: 0,
        },
        paddr: 0x8000_0000,
        width: 4,
        wrote: true,
        new: 0,
    })
}

fn csrs() -> Record {
    let mut v = [0; 17];
    v[16] = 128;
    at_nine(Body::Csrs { mode: 3, v })
}

fn load() -> Record {
    at_nine(Body::Load {
        retire: ADDI,
        at: 0,
        paddr: 127,
    })
}

fn store() -> Record {
    at_nine(Body::Store {
        pc: 1,
        bits: 3,
        paddr: 0,
        value: 16384,
    })
}

/// Written after the last stamp, the record is these bytes, and is read back from them.
fn both_ways(
    rt: &impl Abort,
    alloc: Global,
    event: Record,
    last: u64,
    text: &[u8],
) -> Result<(), Fail> {
    assert!(rt; lawful(&event));
    assert!(rt; last <= event.stamp);
    let mut out = Vec::new(alloc);
    encode2(&event, last, &mut out)?;
    assert_eq!(rt; out.as_slice(), text);
    short_read_back(&event, last);
    assert_eq!(rt;
        decode2(&out, last),
        Decoded::Got {
            event,
            len: text.len()
        }
    );
    Ok(())
}

#[test]
fn a_commit(rt: HostRuntime) -> Result<(), Fail> {
    let mut text = Vec::from_slice(rt.alloc(), &COMMIT)?;
    assert_eq!(rt; decode2(&text, 0), Decoded::Short);
    text.push(0x85)?;
    assert_eq!(rt; decode2(&text, 0), Decoded::Short);
    text.push(0)?;
    assert_eq!(rt; decode2(&text, 0), Decoded::Bad { at: 14 });
    let mut text = Vec::from_slice(rt.alloc(), &COMMIT)?;
    text.push(5)?;
    both_ways(&rt, rt.alloc(), commit(), 0, &text)
}

#[test]
fn the_greatest_numbers(rt: HostRuntime) -> Result<(), Fail> {
    let mut text = Vec::from_slice(rt.alloc(), &[2, 7])?;
    text.extend_from_slice(&GREATEST)?;
    text.push(0x0d)?;
    text.extend_from_slice(&GREATEST)?;
    text.extend_from_slice(&GREATEST)?;
    text.extend_from_slice(&GREATEST)?;
    both_ways(&rt, rt.alloc(), last_trap(), 0, &text)
}

#[test]
fn small_numbers(rt: HostRuntime) -> Result<(), Fail> {
    both_ways(&rt, rt.alloc(), at_nine(Body::Beat), 9, &[10, 7, 0])?;
    both_ways(
        &rt,
        rt.alloc(),
        at_nine(Body::Regs { pc: 0, x: [0; 31] }),
        8,
        &[3, 7, 1, 0, 0, 0, 0],
    )?;
    both_ways(&rt, rt.alloc(), csrs(), 0, &[4, 7, 9, 1, 0, 2, 3, 0x80, 1])?;
    both_ways(
        &rt,
        rt.alloc(),
        store(),
        0,
        &[6, 7, 9, 0x0b, 1, 3, 0x80, 0x80, 1],
    )
}

#[test]
fn memory(rt: HostRuntime) -> Result<(), Fail> {
    let load_text = [
        5, 7, 9, 0x17, 0x80, 0x80, 0x80, 0x80, 8, 0x93, 0x81, 0xc0, 2, 5, 0x7f,
    ];
    both_ways(&rt, rt.alloc(), load(), 0, &load_text)?;
    both_ways(
        &rt,
        rt.alloc(),
        atomic(),
        0,
        &[7, 7, 9, 0x3a, 3, 0x80, 0x80, 0x80, 0x80, 8, 4, 1],
    )?;
    both_ways(
        &rt,
        rt.alloc(),
        drain(),
        0,
        &[8, 7, 9, 7, 0x80, 0x80, 0x80, 0x80, 8, 5, 1, 0xaa, 0xbb],
    )
}

#[test]
fn a_whole_line(rt: HostRuntime) -> Result<(), Fail> {
    let bytes = [0x77; 64];
    let mut text = Vec::from_slice(rt.alloc(), &[9, 7, 9, 1, 0x80, 0x80, 0x80, 0x80, 8])?;
    text.extend_from_slice(&bytes)?;
    let refill = Body::Refill {
        line: 0x8000_0000,
        bytes,
    };
    both_ways(&rt, rt.alloc(), at_nine(refill), 0, &text)
}

#[test]
fn what_is_no_record(rt: HostRuntime) {
    assert_eq!(rt; decode2(&[], 0), Decoded::Short);
    assert_eq!(rt; decode2(&[10, 0xff, 0x80], 0), Decoded::Short);
    assert_eq!(rt;
        decode2(&[0xff], 0),
        Decoded::Bad { at: 0 },
        "the tag of an end"
    );
    assert_eq!(rt;
        decode2(&[1, 0, 0, 8], 0),
        Decoded::Bad { at: 3 },
        "a presence bit past the last"
    );
    assert_eq!(rt;
        decode2(&[1, 0, 0, 1, 0], 0),
        Decoded::Bad { at: 4 },
        "a field that is there is 0"
    );
    assert_eq!(rt;
        decode2(&[10, 0, 1], u64::MAX),
        Decoded::Bad { at: 0 },
        "a stamp past the last"
    );
    assert_eq!(rt;
        decode2(&[10, 8, 0], 0),
        Decoded::Bad { at: 0 },
        "a ninth hart"
    );
    let wide = [1, 0, 0, 2, 0x80, 0x80, 0x80, 0x80, 0x10];
    assert_eq!(rt;
        decode2(&wide, 0),
        Decoded::Bad { at: 0 },
        "an instruction of 33 bits"
    );
    let mut past = [0xff; 12];
    past[0] = 10;
    past[11] = 2;
    assert_eq!(rt;
        decode2(&past, 0),
        Decoded::Bad { at: 11 },
        "a number of 65 bits"
    );
    one_short_spelling();
    short_front();
}
