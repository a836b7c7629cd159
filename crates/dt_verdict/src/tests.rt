//! Verdicts of outcomes by hand.
use crate::{Counts, Failure, HartCounts, Outcome, Verdict, least};
use dt_record::{Key, Reason};
use std::alloc::AllocError;

const fn failure(stamp: u64, hart: u8, seq: u32) -> Failure {
    Failure {
        key: Key { stamp, hart, seq },
        reason: Reason::Value,
        expected: 5,
        found: 6,
    }
}

#[test]
fn harts_without_a_failure_pass(rt: HostRuntime) {
    let fine = |hart: u8| Outcome {
        hart,
        failure: None,
    };
    assert_eq!(rt; least(&[]), Verdict::Pass);
    assert_eq!(rt; least(&[fine(0), fine(1)]), Verdict::Pass);
}

#[test]
fn the_lower_hart_decides_in_one_cycle(rt: HostRuntime) {
    let first = Outcome {
        hart: 0,
        failure: Some(failure(20, 0, 0)),
    };
    let second = Outcome {
        hart: 1,
        failure: Some(failure(20, 1, 0)),
    };
    let passing = Outcome {
        hart: 1,
        failure: None,
    };
    let wanted = Verdict::Fail(failure(20, 0, 0));
    assert_eq!(rt; least(&[first, second]), wanted);
    assert_eq!(rt; least(&[second, first]), wanted);
    assert_eq!(rt; least(&[first, passing]), wanted);
    assert_eq!(rt; least(&[passing, first]), wanted);
}

#[test]
fn the_earlier_cycle_decides(rt: HostRuntime) {
    let early = Outcome {
        hart: 7,
        failure: Some(failure(12, 7, 900)),
    };
    let late = Outcome {
        hart: 0,
        failure: Some(failure(13, 0, 1)),
    };
    assert_eq!(rt; least(&[late, early]), Verdict::Fail(failure(12, 7, 900)));
}

#[test]
fn counts_are_given_back(rt: HostRuntime) -> Result<(), AllocError> {
    let counts = Counts {
        records: 3,
        ..Counts::default()
    };
    let harts = HartCounts::of(vec![in rt.alloc(); counts, Counts::default()]?);
    assert_eq!(rt; harts.items().len(), 2);
    let vec = harts.into_vec();
    assert_eq!(rt; vec.as_slice(), [counts, Counts::default()].as_slice());
    Ok(())
}
