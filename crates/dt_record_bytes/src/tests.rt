use crate::{Decoded, decode, encode, fits, one_spelling, read_back};
use dt_record::{Body, Record, Retire, lawful};
use std::alloc::Global;
use std::test::Fail;

const ADDI: Retire = Retire {
    pc: 0x8000_0000,
    bits: 0x0050_0093,
    value: 5,
};

/// Hart 0 commits addi x1,x0,5 at the start of RAM in cycle 1.
const COMMIT: [u8; 30] = [
    1, 0, 1, 0, 0, 0, 0, 0, 0, 0, 0, 0, 0, 0x80, 0, 0, 0, 0, 0x93, 0, 0x50, 0, 5, 0, 0, 0, 0, 0, 0,
    0,
];

fn at_ten(body: Body) -> Record {
    Record {
        stamp: 10,
        hart: 7,
        body,
    }
}

fn line_with(first: u8) -> [u8; 64] {
    let mut bytes = [0; 64];
    bytes[0] = first;
    bytes
}

fn trap() -> Record {
    at_ten(Body::Trap {
        pc: 0x8000_0000,
        bits: 0x0050_0093,
        cause: 2,
        tval: 0x0102_0304_0506_0708,
    })
}

fn load() -> Record {
    at_ten(Body::Load {
        retire: ADDI,
        at: 10,
        paddr: 0x8000_0100,
    })
}

fn store() -> Record {
    at_ten(Body::Store {
        pc: 0x8000_0000,
        bits: 0x0050_0093,
        paddr: 0x8000_0100,
        value: 7,
    })
}

fn atomic() -> Record {
    at_ten(Body::Atomic {
        retire: ADDI,
        paddr: 0x8000_0008,
        width: 8,
        wrote: true,
        new: 1 << 32,
    })
}

fn drain() -> Record {
    at_ten(Body::Drain {
        line: 0x8000_0040,
        mask: 1,
        count: 1,
        bytes: line_with(9),
    })
}

fn refill() -> Record {
    at_ten(Body::Refill {
        line: 0x8000_0040,
        bytes: line_with(9),
    })
}

fn csrs() -> Record {
    at_ten(Body::Csrs {
        mode: 3,
        v: [1; 17],
    })
}

fn spelling(alloc: Global, event: &Record) -> Result<Vec<u8>, Fail> {
    let mut out = Vec::new(alloc);
    if lawful(event) {
        encode(event, &mut out)?;
    }
    Ok(out)
}

#[test]
fn one_commit_in_bytes(rt: HostRuntime) -> Result<(), Fail> {
    let event = Record {
        stamp: 1,
        hart: 0,
        body: Body::Commit { retire: ADDI },
    };
    let mut out = vec![in rt.alloc(); 0xff]?;
    assert!(rt; lawful(&event));
    encode(&event, &mut out)?;
    assert_eq!(rt; out.len(), 31);
    assert_eq!(rt; out[0], 0xff);
    assert_eq!(rt; &out[1..], COMMIT.as_slice());
    assert_eq!(rt; decode(&COMMIT), Decoded::Got { event, len: 30 });
    one_spelling();
    read_back(&event);
    fits(&event);
    Ok(())
}

#[test]
fn each_kind_has_its_length(rt: HostRuntime) -> Result<(), Fail> {
    let cases = [
        (at_ten(Body::Commit { retire: ADDI }), 30),
        (trap(), 38),
        (
            at_ten(Body::Regs {
                pc: 4,
                x: [0xfedc_ba98_7654_3210; 31],
            }),
            266,
        ),
        (csrs(), 147),
        (load(), 46),
        (store(), 38),
        (atomic(), 48),
        (drain(), 92),
        (refill(), 82),
        (at_ten(Body::Beat), 10),
    ];
    for (event, len) in cases {
        let mut bytes = spelling(rt.alloc(), &event)?;
        assert_eq!(rt; bytes.len(), len, "{event:?}");
        for cut in 0..bytes.len() {
            assert_eq!(rt; decode(&bytes[..cut]), Decoded::Short, "{event:?} {cut}");
        }
        bytes.push(0xff)?;
        assert_eq!(rt; decode(&bytes), Decoded::Got { event, len });
    }
    Ok(())
}
