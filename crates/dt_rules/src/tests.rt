use crate::{counter, device, interrupt, pending, tval};
use dt_csr::Csrs;

const MACHINE_TIMER: u64 = 0x8000_0000_0000_0007;

const SUPERVISOR_TIMER: u64 = 0x8000_0000_0000_0005;

/// The registers after a reset, but for mie, mideleg, and mstatus.SIE and MIE.
fn enabling(mie: u64, mideleg: u64, status: u64) -> Csrs {
    Csrs {
        mie,
        mideleg,
        mstatus: 0xa_0000_0000 | status,
        ..Csrs::reset()
    }
}

#[test]
fn interrupts_by_mode(rt: HostRuntime) {
    let rows = [
        (0x00, 0x000, 0, 3, MACHINE_TIMER, Err(0)),
        (0x80, 0x000, 8, 3, MACHINE_TIMER, Ok(())),
        (0x00, 0x000, 8, 3, MACHINE_TIMER, Err(0)),
        (0x80, 0x000, 0, 3, MACHINE_TIMER, Err(0)),
        (0x80, 0x000, 0, 1, MACHINE_TIMER, Ok(())),
        (0xa0, 0x020, 8, 3, SUPERVISOR_TIMER, Err(0x80)),
        (0xa0, 0x020, 0, 1, SUPERVISOR_TIMER, Err(0x80)),
        (0xa0, 0x020, 2, 1, SUPERVISOR_TIMER, Ok(())),
        (0xa0, 0x020, 0, 0, SUPERVISOR_TIMER, Ok(())),
        (0x80, 0x000, 8, 3, 7, Err(0x80)),
        (0x80, 0x000, 8, 3, 0x8000_0000_0000_0047, Err(0x80)),
        (0x80, 0x000, 8, 3, u64::MAX, Err(0x80)),
    ];
    for (mie, mideleg, status, mode, cause, expected) in rows {
        let answer = interrupt(&enabling(mie, mideleg, status), mode, cause);
        assert_eq!(rt; answer, expected, "of {cause:x} in mode {mode}");
    }
}

#[test]
fn adopted_values(rt: HostRuntime) {
    assert_eq!(rt; tval(0x8000_0000, 0x8000_0000), Some(false));
    assert_eq!(rt; tval(0x8000_0000, 0), Some(true));
    assert_eq!(rt; tval(0x8000_0000, 0x8000_0001), None);
    assert_eq!(rt; tval(0, 0), Some(false));
    assert_eq!(rt; tval(0, 1), None);
    assert_eq!(rt;
        (counter(0, 0x64), counter(0x64, 0x64), counter(0x64, 0x63)),
        (true, true, false)
    );
    assert_eq!(rt;
        (
            pending(0xaaa, 0x880),
            pending(0xaaa, 0),
            pending(0x222, 0x80)
        ),
        (true, true, false)
    );
    assert_eq!(rt;
        (device(8, true, 0xabc), device(8, false, u64::MAX)),
        (true, true)
    );
    let negative = 0xffff_ffff_ffff_ff80;
    assert_eq!(rt;
        (device(1, true, 0x80), device(1, true, negative)),
        (false, true)
    );
    assert_eq!(rt;
        (device(1, false, 0x80), device(1, false, negative)),
        (true, false)
    );
    assert_eq!(rt;
        (device(4, true, 0x8000_0000), device(2, false, 0x1_0000)),
        (false, false)
    );
}
