use crate::{Misfit, commit_value};
use dt_decode::CsrOp;
use dt_record::Reason;
use dt_step::{Planned, reset};

const CYCLE: u16 = 0xc00;

const MIP: u16 = 0x344;

/// CSRRS of this register from x0.
fn reading(number: u16, rd: u8) -> Planned {
    Planned::Csr {
        number,
        op: CsrOp::Set,
        operand: 0,
        reads: true,
        writes: false,
        rd,
    }
}

fn misfit(reason: Reason, expected: u64, found: u64) -> Misfit {
    Misfit {
        reason,
        expected,
        found,
    }
}

#[test]
fn values_of_commits(rt: HostRuntime) {
    let mut hart = reset(0);
    let add = Planned::Done {
        rd: 1,
        value: 5,
        next: 0x8000_0004,
    };
    assert_eq!(rt; commit_value(&hart, add, 5), Ok(false));
    assert_eq!(rt;
        commit_value(&hart, add, 6),
        Err(misfit(Reason::Value, 5, 6))
    );
    assert_eq!(rt; commit_value(&hart, reading(CYCLE, 1), 0x64), Ok(true));
    hart.csrs.cycle_floor = 0x64;
    assert_eq!(rt;
        commit_value(&hart, reading(CYCLE, 1), 0x63),
        Err(misfit(Reason::Counter, 0x64, 0x63))
    );
    assert_eq!(rt; commit_value(&hart, reading(CYCLE, 0), 0), Ok(false));
    assert_eq!(rt;
        commit_value(&hart, reading(CYCLE, 0), 0x64),
        Err(misfit(Reason::Value, 0, 0x64))
    );
    assert_eq!(rt; commit_value(&hart, reading(MIP, 1), 0x880), Ok(true));
    assert_eq!(rt;
        commit_value(&hart, reading(MIP, 1), 0x881),
        Err(misfit(Reason::Adopt, 0x880, 0x881))
    );
}
