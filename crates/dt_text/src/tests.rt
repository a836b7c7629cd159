use super::*;
use dt_record::{Body, Record, Retire};
use std::alloc::AllocError;
use std::test::*;

const RETIRE: Retire = Retire {
    pc: 0x8000_0000,
    bits: 0x0050_0093,
    value: 5,
};

fn texts() -> [(Body, &'static str); 8] {
    [
        (
            Body::Commit { retire: RETIRE },
            "1.0.2 Commit pc=0000000080000000 bits=00500093 value=0000000000000005\n",
        ),
        (
            Body::Trap {
                pc: 0x8000_0010,
                bits: 0,
                cause: 0x8000_0000_0000_0007,
                tval: 0xfedc_ba98_7654_3210,
            },
            "1.0.2 Trap pc=0000000080000010 bits=00000000 cause=8000000000000007 tval=fedcba9876543210\n",
        ),
        (
            Body::Load {
                retire: RETIRE,
                at: 12,
                paddr: 0x8000_0100,
            },
            "1.0.2 Load pc=0000000080000000 bits=00500093 value=0000000000000005 at=12 paddr=0000000080000100\n",
        ),
        (
            Body::Store {
                pc: 0x8000_0010,
                bits: 0x1072_b023,
                paddr: 0x8000_0100,
                value: 7,
            },
            "1.0.2 Store pc=0000000080000010 bits=1072b023 paddr=0000000080000100 value=0000000000000007\n",
        ),
        (
            Body::Atomic {
                retire: RETIRE,
                paddr: 0x8000_0100,
                width: 8,
                wrote: true,
                new: 0xab,
            },
            "1.0.2 Atomic pc=0000000080000000 bits=00500093 value=0000000000000005 paddr=0000000080000100 width=8 wrote=1 new=00000000000000ab\n",
        ),
        (
            Body::Drain {
                line: 0x8000_0100,
                mask: 0xff,
                count: 65535,
                bytes: [0x1f; 64],
            },
            "1.0.2 Drain line=0000000080000100 mask=00000000000000ff count=65535 bytes=1f1f1f1f1f1f1f1f1f1f1f1f1f1f1f1f1f1f1f1f1f1f1f1f1f1f1f1f1f1f1f1f1f1f1f1f1f1f1f1f1f1f1f1f1f1f1f1f1f1f1f1f1f1f1f1f1f1f1f1f1f1f1f1f\n",
        ),
        (
            Body::Refill {
                line: 0x8000_0140,
                bytes: [0; 64],
            },
            "1.0.2 Refill line=0000000080000140 bytes=00000000000000000000000000000000000000000000000000000000000000000000000000000000000000000000000000000000000000000000000000000000\n",
        ),
        (Body::Beat, "1.0.2 Beat\n"),
    ]
}

#[test]
fn each_kind_has_its_line(rt: HostRuntime) -> Result<(), AllocError> {
    for (body, text) in &texts() {
        let event = Record {
            stamp: 1,
            hart: 0,
            body: *body,
        };
        let printed = line(rt.alloc(), &event, 2)?;
        assert_eq!(rt; printed.bytes(), text.as_bytes());
    }
    Ok(())
}

#[test]
fn registers_are_joined_by_commas(rt: HostRuntime) -> Result<(), AllocError> {
    let regs = Record {
        stamp: u64::MAX,
        hart: 7,
        body: Body::Regs {
            pc: 1,
            x: [0xa; 31],
        },
    };
    let printed = line(rt.alloc(), &regs, 4_194_303)?;
    let text = printed.bytes();
    let front =
        b"18446744073709551615.7.4194303 Regs pc=0000000000000001 x=000000000000000a,000000000000000a,";
    assert!(rt; text.starts_with(front));
    assert!(rt; text.ends_with(b",000000000000000a\n"));
    assert_eq!(rt; text.len(), 58 + 31 * 17);
    let csrs = Record {
        stamp: 0,
        hart: 1,
        body: Body::Csrs {
            mode: 3,
            v: [0xb; 17],
        },
    };
    let printed = line(rt.alloc(), &csrs, 0)?;
    let text = printed.bytes();
    assert!(rt; text.starts_with(b"0.1.0 Csrs mode=3 v=000000000000000b,000000000000000b,"));
    assert_eq!(rt; text.len(), 20 + 17 * 17);
    Ok(())
}
