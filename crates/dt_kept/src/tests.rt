use crate::{HartEvents, Traced, events_from, kept_from, traced_events};
use dt_record::{Body, Key, Record, Retire};
use std::test::Fail;

fn beat(stamp: u64, hart: u8) -> Record {
    Record {
        stamp,
        hart,
        body: Body::Beat,
    }
}

/// A jump to itself.
fn jump(stamp: u64, hart: u8, value: u64) -> Record {
    let retire = Retire {
        pc: 0x8000_0000,
        bits: 0x6f,
        value,
    };
    Record {
        stamp,
        hart,
        body: Body::Commit { retire },
    }
}

/// A record of the cycle of the cut is kept, and one of the cycle before it is not.
#[test]
fn records_are_kept_from_the_cut_on(rt: HostRuntime) -> Result<(), Fail> {
    let records = [
        beat(0, 0),
        beat(99, 0),
        beat(50, 2),
        beat(100, 0),
        jump(130, 0, 1),
        beat(60, 2),
    ];
    let kept = kept_from(rt.alloc(), 3, 100, &records, Vec::new(rt.alloc()))?;
    assert!(rt; kept.writes.is_empty());
    assert_eq!(rt; kept.harts.len(), 3);
    let first = &kept.harts[0];
    assert_eq!(rt; first.first, 2);
    assert_eq!(rt;
        first.events.as_slice(),
        [beat(100, 0), jump(130, 0, 1)].as_slice()
    );
    for (hart, count) in [(1, 0), (2, 2)] {
        let HartEvents { first, events } = &kept.harts[hart];
        assert_eq!(rt; *first, count, "hart {hart}");
        assert!(rt; events.is_empty());
    }
    Ok(())
}

#[test]
fn a_hart_is_kept_by_itself(rt: HostRuntime) -> Result<(), Fail> {
    let records = [jump(0, 0, 0), jump(5000, 0, 0), beat(5000, 1)];
    let kept = events_from(rt.alloc(), 1, 0, &records)?;
    assert_eq!(rt; kept.first, 0);
    assert_eq!(rt; kept.events.as_slice(), [beat(5000, 1)].as_slice());
    Ok(())
}

/// Signs of life of three harts.
const SIGNS: [Record; 7] = [
    Record {
        stamp: 40,
        hart: 1,
        body: Body::Beat,
    },
    Record {
        stamp: 120,
        hart: 1,
        body: Body::Beat,
    },
    Record {
        stamp: 100,
        hart: 0,
        body: Body::Beat,
    },
    Record {
        stamp: 120,
        hart: 1,
        body: Body::Beat,
    },
    Record {
        stamp: 120,
        hart: 2,
        body: Body::Beat,
    },
    Record {
        stamp: 120,
        hart: 0,
        body: Body::Beat,
    },
    Record {
        stamp: 130,
        hart: 1,
        body: Body::Beat,
    },
];

/// The trace has the records of all harts by key, up to the failing one. In the failing one's cycle
/// those of harts with a greater number stand behind it.
#[test]
fn a_trace_ends_with_the_failing_record(rt: HostRuntime) -> Result<(), Fail> {
    let kept = kept_from(rt.alloc(), 3, 100, &SIGNS, Vec::new(rt.alloc()))?;
    let failing = Key {
        stamp: 120,
        hart: 1,
        seq: 2,
    };
    let traced = traced_events(rt.alloc(), &kept.harts, failing)?;
    let wanted = [
        (0, beat(100, 0)),
        (1, beat(120, 0)),
        (1, beat(120, 1)),
        (2, beat(120, 1)),
    ]
    .map(|(seq, event)| Traced { seq, event });
    assert_eq!(rt; traced.as_slice(), wanted.as_slice());
    Ok(())
}
