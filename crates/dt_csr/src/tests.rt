use super::*;

/// Of each register in the order of the numbers: the number, the least mode that reads it where
/// the counters are open, and whether it can be written.
const REGISTERS: [(u16, u8, bool); 32] = [
    (0x100, 1, true),
    (0x104, 1, true),
    (0x105, 1, true),
    (0x106, 1, true),
    (0x140, 1, true),
    (0x141, 1, true),
    (0x142, 1, true),
    (0x143, 1, true),
    (0x144, 1, true),
    (0x180, 1, true),
    (0x300, 3, true),
    (0x301, 3, true),
    (0x302, 3, true),
    (0x303, 3, true),
    (0x304, 3, true),
    (0x305, 3, true),
    (0x306, 3, true),
    (0x340, 3, true),
    (0x341, 3, true),
    (0x342, 3, true),
    (0x343, 3, true),
    (0x344, 3, true),
    (0xB00, 3, true),
    (0xB02, 3, true),
    (0xC00, 0, false),
    (0xC01, 0, false),
    (0xC02, 0, false),
    (0xF11, 3, false),
    (0xF12, 3, false),
    (0xF13, 3, false),
    (0xF14, 3, false),
    (0xF15, 3, false),
];

/// Whether a mode may read and may write the register with this number.
fn expected(number: u16, mode: u8) -> (bool, bool) {
    for (known, least, writable) in REGISTERS {
        if known == number {
            return (least <= mode, least <= mode && writable);
        }
    }
    (false, false)
}

#[test]
fn every_number_in_every_mode(rt: HostRuntime) {
    let c = Csrs {
        mcounteren: 7,
        scounteren: 7,
        ..Csrs::reset()
    };
    for number in 0..4096u16 {
        for mode in [USER, SUPERVISOR, MACHINE] {
            let legal = (
                read(&c, mode, 0, number) != CsrRead::Illegal,
                may_write(&c, mode, number),
            );
            assert_eq!(rt; legal, expected(number, mode), "{number:x} in {mode}");
            let mut written = c;
            assert_eq!(rt;
                write(&mut written, mode, number, 0),
                legal.1,
                "{number:x} in {mode}"
            );
        }
    }
}

/// mcounteren, scounteren, mstatus, a number, and the modes from U, S and M that may read it.
#[test]
fn counters_and_satp_ask_the_state(rt: HostRuntime) {
    for (mcounteren, scounteren, mstatus, number, modes) in [
        (0, 0, 0, 0xC00, [false, false, true]),
        (1, 0, 0, 0xC00, [false, true, true]),
        (0, 1, 0, 0xC00, [false, false, true]),
        (1, 1, 0, 0xC00, [true, true, true]),
        (5, 7, 0, 0xC01, [false, false, true]),
        (2, 2, 0, 0xC01, [true, true, true]),
        (3, 3, 0, 0xC02, [false, false, true]),
        (4, 4, 0, 0xC02, [true, true, true]),
        (0, 0, 0x10_0000, 0x180, [false, false, true]),
        (0, 0, 0x60_0000, 0x180, [false, true, true]),
    ] {
        let c = Csrs {
            mcounteren,
            scounteren,
            mstatus,
            ..Csrs::reset()
        };
        for (mode, legal) in [
            (USER, modes[0]),
            (SUPERVISOR, modes[1]),
            (MACHINE, modes[2]),
        ] {
            assert_eq!(rt;
                read(&c, mode, 0, number) != CsrRead::Illegal,
                legal,
                "{number:x} in {mode}"
            );
            assert_eq!(rt;
                may_write(&c, mode, number),
                legal && number == 0x180,
                "{number:x} in {mode}"
            );
        }
    }
}

/// A number, what M reads after a reset, and what it reads after a write of all ones.
#[test]
fn values_by_the_table(rt: HostRuntime) {
    for (number, fresh, filled) in [
        (0x300, 0xA_0000_0000, 0xA_007E_19AA),
        (0x301, 0x8000_0000_0014_1105, 0x8000_0000_0014_1105),
        (0x302, 0, 0xB3FF),
        (0x303, 0, 0x222),
        (0x304, 0, 0xAAA),
        (0x305, 0, 0xFFFF_FFFF_FFFF_FFFD),
        (0x306, 0, 7),
        (0x340, 0, 0xFFFF_FFFF_FFFF_FFFF),
        (0x341, 0, 0xFFFF_FFFF_FFFF_FFFE),
        (0x342, 0, 0xFFFF_FFFF_FFFF_FFFF),
        (0x343, 0, 0xFFFF_FFFF_FFFF_FFFF),
        (0x100, 0x2_0000_0000, 0x2_000C_0122),
        (0x104, 0, 0),
        (0x105, 0, 0xFFFF_FFFF_FFFF_FFFD),
        (0x106, 0, 7),
        (0x140, 0, 0xFFFF_FFFF_FFFF_FFFF),
        (0x141, 0, 0xFFFF_FFFF_FFFF_FFFE),
        (0x142, 0, 0xFFFF_FFFF_FFFF_FFFF),
        (0x143, 0, 0xFFFF_FFFF_FFFF_FFFF),
        (0x180, 0, 0),
        (0xF11, 0, 0),
        (0xF14, 5, 5),
    ] {
        let mut c = Csrs::reset();
        assert_eq!(rt;
            read(&c, MACHINE, 5, number),
            CsrRead::Value(fresh),
            "{number:x}"
        );
        let _ = write(&mut c, MACHINE, number, u64::MAX);
        assert_eq!(rt;
            read(&c, MACHINE, 5, number),
            CsrRead::Value(filled),
            "{number:x}"
        );
    }
}

#[test]
fn counters_and_pending_interrupts(rt: HostRuntime) {
    let mut c = Csrs {
        mideleg: 0x22,
        ..Csrs::reset()
    };
    for (number, answer) in [
        (0xB00, CsrRead::Counter(0)),
        (0xC00, CsrRead::Counter(0)),
        (0xC01, CsrRead::Counter(1)),
        (0xB02, CsrRead::Counter(2)),
        (0xC02, CsrRead::Counter(2)),
        (0x344, CsrRead::Pending(0xAAA)),
        (0x144, CsrRead::Pending(0x22)),
    ] {
        assert_eq!(rt; read(&c, MACHINE, 0, number), answer, "{number:x}");
    }
    let before = c;
    assert!(rt; write(&mut c, MACHINE, 0x344, 0xAAA) && write(&mut c, SUPERVISOR, 0x144, 0x222));
    assert_eq!(rt; c, before);
    assert!(rt; write(&mut c, MACHINE, 0xB00, 100) && write(&mut c, MACHINE, 0xB02, 9));
    assert_eq!(rt;
        c,
        Csrs {
            cycle_floor: 100,
            instret_floor: 9,
            ..before
        }
    );
}

/// satp before a write, the value that is written, whether the registers are wide, and satp after.
#[test]
fn satp_keeps_its_modes(rt: HostRuntime) {
    for (satp, value, wide, kept) in [
        (0, 0x8000_0000_0008_0002, false, 0x8000_0000_0008_0002),
        (0x8000_0000_0008_0002, 0, false, 0),
        (0, 0x9000_0000_0000_0000, false, 0),
        (0, 0x9000_0000_0000_0000, true, 0x9000_0000_0000_0000),
        (
            0x8000_0000_0008_0002,
            0xA000_0000_0000_0001,
            true,
            0x8000_0000_0008_0002,
        ),
        (
            0x8000_0000_0008_0002,
            0x1000_0000_0000_0001,
            true,
            0x8000_0000_0008_0002,
        ),
    ] {
        let mut c = Csrs {
            satp,
            wide,
            ..Csrs::reset()
        };
        assert!(rt; write(&mut c, SUPERVISOR, 0x180, value));
        assert_eq!(rt; c.satp, kept, "{value:x}");
    }
}

/// mie, mideleg, mstatus, the mode, and the mask of the enabled codes.
#[test]
fn interrupts_by_delegation_and_mode(rt: HostRuntime) {
    for (mie, mideleg, mstatus, mode, enabled) in [
        (0, 0, 0, MACHINE, 0),
        (0, 0, 8, MACHINE, 0),
        (0x80, 0, 0, MACHINE, 0),
        (0x80, 0, 8, MACHINE, 0x80),
        (0x80, 0, 0, SUPERVISOR, 0x80),
        (0xAAA, 0x222, 8, MACHINE, 0x888),
        (0xAAA, 0x222, 2, MACHINE, 0),
        (0xAAA, 0x222, 0, SUPERVISOR, 0x888),
        (0xAAA, 0x222, 2, SUPERVISOR, 0xAAA),
        (0xAAA, 0x222, 0, USER, 0xAAA),
        (0x20, 0x222, 0, USER, 0x20),
    ] {
        let c = Csrs {
            mie,
            mideleg,
            mstatus,
            ..Csrs::reset()
        };
        assert_eq!(rt;
            interrupt_enabled(&c, mode),
            enabled,
            "{mie:x} {mideleg:x} {mstatus:x} in {mode}"
        );
    }
}

/// The mode, the cause, the vector of M, and the new mode and pc, where ecalls from U, page faults
/// and the timer of S are delegated and S has the vector 80000401.
#[test]
fn traps_go_to_their_vector(rt: HostRuntime) {
    for (mode, cause, mtvec, reached) in [
        (MACHINE, 3, 0x8000_0100, (MACHINE, 0x8000_0100)),
        (MACHINE, 13, 0x8000_0100, (MACHINE, 0x8000_0100)),
        (SUPERVISOR, 13, 0x8000_0100, (SUPERVISOR, 0x8000_0400)),
        (USER, 8, 0x8000_0100, (SUPERVISOR, 0x8000_0400)),
        (SUPERVISOR, 9, 0x8000_0101, (MACHINE, 0x8000_0100)),
        (
            USER,
            0x8000_0000_0000_0007,
            0x8000_0100,
            (MACHINE, 0x8000_0100),
        ),
        (
            USER,
            0x8000_0000_0000_0007,
            0x8000_0101,
            (MACHINE, 0x8000_011C),
        ),
        (
            USER,
            0x8000_0000_0000_0005,
            0x8000_0101,
            (SUPERVISOR, 0x8000_0414),
        ),
        (
            MACHINE,
            0x8000_0000_0000_0005,
            0x8000_0101,
            (MACHINE, 0x8000_0114),
        ),
        (
            USER,
            0x8000_0000_0000_0049,
            0x8000_0100,
            (MACHINE, 0x8000_0100),
        ),
    ] {
        let mut c = Csrs {
            medeleg: 0xB100,
            mideleg: 0x222,
            mtvec,
            stvec: 0x8000_0401,
            ..Csrs::reset()
        };
        assert_eq!(rt;
            enter_trap(&mut c, mode, 0x8000_0000, cause, 0),
            reached,
            "{cause:x} in {mode}"
        );
    }
}

#[test]
fn a_trap_changes_its_stack(rt: HostRuntime) {
    let start = Csrs {
        mstatus: 0xA_0000_0008,
        ..Csrs::reset()
    };
    let mut c = start;
    let _ = enter_trap(&mut c, SUPERVISOR, 0x8000_0010, 9, 4);
    let in_m = Csrs {
        mstatus: 0xA_0000_0880,
        mepc: 0x8000_0010,
        mcause: 9,
        mtval: 4,
        ..start
    };
    assert_eq!(rt; c, in_m);
    assert_eq!(rt; mret(&mut c), (SUPERVISOR, 0x8000_0010));
    assert_eq!(rt;
        c,
        Csrs {
            mstatus: 0xA_0000_0088,
            ..in_m
        }
    );

    let start = Csrs {
        mstatus: 0xA_0000_0002,
        medeleg: 0x100,
        ..Csrs::reset()
    };
    let mut c = start;
    let _ = enter_trap(&mut c, USER, 0x1000, 8, 0);
    let in_s = Csrs {
        mstatus: 0xA_0000_0020,
        sepc: 0x1000,
        scause: 8,
        ..start
    };
    assert_eq!(rt; c, in_s);
    assert_eq!(rt; sret(&mut c), (USER, 0x1000));
    assert_eq!(rt;
        c,
        Csrs {
            mstatus: 0xA_0000_0022,
            ..in_s
        }
    );
}

/// mstatus before, and the mode and mstatus after MRET.
#[test]
fn mret_ends_mprv_below_m(rt: HostRuntime) {
    for (before, mode, after) in [
        (0xA_0002_0080, USER, 0xA_0000_0088),
        (0xA_0002_0880, SUPERVISOR, 0xA_0000_0088),
        (0xA_0002_1800, MACHINE, 0xA_0002_0080),
    ] {
        let mut c = Csrs {
            mstatus: before,
            mepc: 0x8000_0080,
            ..Csrs::reset()
        };
        assert_eq!(rt; mret(&mut c), (mode, 0x8000_0080), "{before:x}");
        assert_eq!(rt; c.mstatus, after, "{before:x}");
    }
}

/// mstatus, a value that M writes, and mstatus after: an MPP of 2 is not written.
#[test]
fn mpp_names_a_mode(rt: HostRuntime) {
    for (before, value, after) in [
        (0xA_0000_1800, 0x1008, 0xA_0000_1808),
        (0xA_0000_0800, 0x1008, 0xA_0000_0808),
        (0xA_0000_1800, 0x0808, 0xA_0000_0808),
        (0xA_0000_1800, 0, 0xA_0000_0000),
    ] {
        let mut c = Csrs {
            mstatus: before,
            ..Csrs::reset()
        };
        assert!(rt; write(&mut c, MACHINE, 0x300, value));
        assert_eq!(rt; c.mstatus, after, "{before:x} {value:x}");
    }
}

/// The values after a reset, and one change of each that is out of bounds or inside.
#[test]
fn values_with_bounds(rt: HostRuntime) {
    let reset = Csrs::reset().values();
    for (place, value, narrow, wide) in [
        (0, 0xa_007e_19aa, true, true),
        (0, 0xa_007e_11aa, false, false),
        (0, 0xa_007e_09aa, true, true),
        (0, 0x8_0000_0000, false, false),
        (1, 0x400, false, false),
        (1, 0xb3ff, true, true),
        (2, 0x222, true, true),
        (2, 0x888, false, false),
        (3, 0xaaa, true, true),
        (3, 1, false, false),
        (4, 2, false, false),
        (5, 8, false, false),
        (6, u64::MAX, true, true),
        (7, 1, false, false),
        (10, 2, false, false),
        (11, 8, false, false),
        (13, 1, false, false),
        (15, u64::MAX, true, true),
        (16, 0x8fff_ffff_ffff_ffff, true, true),
        (16, 0x9000_0000_0000_0000, false, true),
        (16, 0x1000_0000_0000_0000, false, false),
    ] {
        let mut v = reset;
        assert!(rt; place < v.len());
        v[place] = value;
        let answers = (keeps_bounds(&v, false), keeps_bounds(&v, true));
        assert_eq!(rt; answers, (narrow, wide), "{value:x} at {place}");
        if keeps_bounds(&v, true) {
            let c = Csrs::of_values(v, 1, 2, 3, true);
            assert_eq!(rt; c.values(), v);
            assert_eq!(rt; (c.floor(0), c.floor(2), c.floor(1)), (1, 2, 3));
        }
    }
}
