ghost use Rattle.std.specs.Prelude.{◌≡◌, ◌<◌};
ghost use Rattle.dt_csr.specs.Kept.{NamesMode};
ghost use Rattle.dt_step.specs.State.{IsArch};

use super::*;
use dt_alu::AmoOp;
use dt_csr::{Csrs, MACHINE, SUPERVISOR, USER, interrupt_enabled, mstatus};
use dt_decode::{CsrOp, decode};
use std::process::Abort;

/// Hart 3 at 80000000 with x5 = 80000000, x6 = 8000000000000001 and x7 = ffffffff00000007.
fn start(rt: &impl Abort, mode: u8, status: u64) -> Arch
    ensures { IsArch result }
{
    assert!(rt; mode == USER || mode == SUPERVISOR || mode == MACHINE);
    assert!(rt; mstatus::MPP.get(status) != mstatus::RESERVED_MODE);
    let mut a = reset(3);
    a.x[5] = 0x8000_0000;
    a.x[6] = 0x8000_0000_0000_0001;
    a.x[7] = 0xFFFF_FFFF_0000_0007;
    a.csrs.mstatus = status;
    a.mode = mode;
    a
}

/// The plan of the instruction with these bits, where they have a meaning.
fn planned(rt: &impl Abort, a: &Arch, bits: u32) -> Planned
    requires { IsArch a.now }
{
    let i = decode(bits).expect(rt, "bits with a meaning");
    plan(a, i, bits)
}

fn done(rd: u8, value: u64, next: u64) -> Planned {
    Planned::Done { rd, value, next }
}

fn raises(cause: u64, tval: u64) -> Planned {
    Planned::Raises { cause, tval }
}

fn load(va: u64, width: u8, signed: bool, rd: u8) -> Planned {
    Planned::NeedsLoad {
        va,
        width,
        signed,
        rd,
    }
}

fn store(va: u64, width: u8, value: u64) -> Planned {
    Planned::NeedsStore { va, width, value }
}

fn fences(ww: bool, wr: bool, rr: bool) -> Planned {
    Planned::Fences { ww, wr, rr }
}

fn pages(va: Option<u64>, all: bool) -> Planned {
    Planned::FencesPages { va, all }
}

/// An access at 80000000 that does not release.
fn atomic(width: u8, op: AtomicOp, aq: bool, rd: u8, operand: u64) -> Planned {
    Planned::NeedsAtomic {
        va: 0x8000_0000,
        width,
        op,
        aq,
        rl: false,
        rd,
        operand,
    }
}

fn access(number: u16, op: CsrOp, operand: u64, (reads, writes): (bool, bool), rd: u8) -> Planned {
    Planned::Csr {
        number,
        op,
        operand,
        reads,
        writes,
        rd,
    }
}

/// Computing, jumps and branches, with bits from the manual's encodings.
#[test]
fn plans_that_are_done(rt: HostRuntime) {
    let a = start(&rt, MACHINE, 0xA_0000_0000);
    for (bits, plan) in [
        (0x0000_0297, done(5, 0x8000_0000, 0x8000_0004)),
        (0x8000_00B7, done(1, 0xFFFF_FFFF_8000_0000, 0x8000_0004)),
        (0x0050_0093, done(1, 5, 0x8000_0004)),
        (0x4062_8133, done(2, 0x8000_0000_7FFF_FFFF, 0x8000_0004)),
        (0x0080_00EF, done(1, 0x8000_0004, 0x8000_0008)),
        (0xFE5F_F06F, done(0, 0x8000_0004, 0x7FFF_FFE4)),
        (0x0003_00E7, done(1, 0x8000_0004, 0x8000_0000_0000_0000)),
        (0x0003_1663, done(0, 0, 0x8000_000C)),
        (0x0003_0663, done(0, 0, 0x8000_0004)),
        (0x1050_0073, done(0, 0, 0x8000_0004)),
    ] {
        assert_eq!(rt; planned(&rt, &a, bits), plan, "{bits:x}");
    }
}

#[test]
fn plans_of_accesses_and_fences(rt: HostRuntime) {
    let a = start(&rt, MACHINE, 0xA_0000_0000);
    for (bits, plan) in [
        (0x1002_B403, load(0x8000_0100, 8, true, 8)),
        (0x2022_C403, load(0x8000_0202, 1, false, 8)),
        (0x1072_B023, store(0x8000_0100, 8, 0xFFFF_FFFF_0000_0007)),
        (0x1072_A023, store(0x8000_0100, 4, 7)),
        (0x0330_000F, fences(true, true, true)),
        (0x8330_000F, fences(true, false, true)),
        (0x8310_000F, fences(true, false, false)),
        (0x0120_000F, fences(false, true, false)),
        (0x0220_000F, fences(false, false, true)),
        (0x0000_100F, Planned::FenceI),
        (0x1200_0073, pages(None, true)),
        (0x1202_8073, pages(Some(0x8000_0000), false)),
        (0x1250_0073, pages(None, false)),
        (0x3020_0073, Planned::Returns { from_m: true }),
        (0x1020_0073, Planned::Returns { from_m: false }),
    ] {
        assert_eq!(rt; planned(&rt, &a, bits), plan, "{bits:x}");
    }
}

#[test]
fn plans_of_atomics_and_registers(rt: HostRuntime) {
    let a = start(&rt, MACHINE, 0xA_0000_0000);
    for (bits, plan) in [
        (
            0x0C72_A72F,
            atomic(4, AtomicOp::Amo(AmoOp::Swap), true, 14, 7),
        ),
        (
            0x1872_B62F,
            atomic(8, AtomicOp::Sc, false, 12, 0xFFFF_FFFF_0000_0007),
        ),
        (0x1002_B5AF, atomic(8, AtomicOp::Lr, false, 11, 0)),
        (0xF140_2373, access(0xF14, CsrOp::Set, 0, (true, false), 6)),
        (
            0x3042_9073,
            access(0x304, CsrOp::Write, 0x8000_0000, (false, true), 0),
        ),
        (0x3004_6073, access(0x300, CsrOp::Set, 8, (true, true), 0)),
        (
            0x3000_7073,
            access(0x300, CsrOp::Clear, 0, (true, false), 0),
        ),
    ] {
        assert_eq!(rt; planned(&rt, &a, bits), plan, "{bits:x}");
    }
}

/// What raises by itself in M: breakpoints, calls, accesses that are not aligned, and registers that
/// are not there or cannot be written.
#[test]
fn plans_that_raise(rt: HostRuntime) {
    let a = start(&rt, MACHINE, 0xA_0000_0000);
    for (bits, plan) in [
        (0x0010_0073, raises(3, 0x8000_0000)),
        (0x0000_0073, raises(11, 0)),
        (0x1012_B403, raises(4, 0x8000_0101)),
        (0x1003_35AF, raises(4, 0x8000_0000_0000_0001)),
        (0x1072_B0A3, raises(6, 0x8000_0101)),
        (0x0873_272F, raises(6, 0x8000_0000_0000_0001)),
        (0x1873_362F, raises(6, 0x8000_0000_0000_0001)),
        (0xF140_1073, raises(2, 0xF140_1073)),
        (0x3A00_1073, raises(2, 0x3A00_1073)),
        (0xC002_A0F3, raises(2, 0xC002_A0F3)),
    ] {
        assert_eq!(rt; planned(&rt, &a, bits), plan, "{bits:x}");
    }
}

/// Bits, the mode, mstatus, and the cause that is raised, or 0 for none.
#[test]
fn privileges_of_the_modes(rt: HostRuntime) {
    for (bits, mode, status, cause) in [
        (0x3020_0073, USER, 0, 2),
        (0x3020_0073, SUPERVISOR, 0, 2),
        (0x3020_0073, MACHINE, 0, 0),
        (0x1020_0073, USER, 0, 2),
        (0x1020_0073, SUPERVISOR, 0x30_0000, 0),
        (0x1020_0073, SUPERVISOR, 0x40_0000, 2),
        (0x1020_0073, MACHINE, 0x40_0000, 0),
        (0x1050_0073, USER, 0, 2),
        (0x1050_0073, SUPERVISOR, 0x50_0000, 0),
        (0x1050_0073, SUPERVISOR, 0x20_0000, 2),
        (0x1050_0073, MACHINE, 0x20_0000, 0),
        (0x1200_0073, USER, 0, 2),
        (0x1200_0073, SUPERVISOR, 0x60_0000, 0),
        (0x1200_0073, SUPERVISOR, 0x10_0000, 2),
        (0x1200_0073, MACHINE, 0x10_0000, 0),
        (0x1800_2173, USER, 0, 2),
        (0x1800_2173, SUPERVISOR, 0x60_0000, 0),
        (0x1800_2173, SUPERVISOR, 0x10_0000, 2),
        (0xC000_20F3, SUPERVISOR, 0, 2),
        (0xC000_20F3, MACHINE, 0, 0),
        (0x0000_0073, USER, 0, 8),
        (0x0000_0073, SUPERVISOR, 0, 9),
    ] {
        let a = start(&rt, mode, status);
        let found = match planned(&rt, &a, bits) {
            Planned::Raises { cause, .. } => cause,
            _ => 0,
        };
        assert_eq!(rt; found, cause, "{bits:x} in {mode}");
    }
}

/// A 16-bit jump through x5 links to the instruction two bytes further.
#[test]
fn short_instructions(rt: HostRuntime) {
    let a = start(&rt, MACHINE, 0xA_0000_0000);
    let jump = decode(0x0002_80E7).expect(&rt, "JALR");
    assert_eq!(rt; plan(&a, jump, 0x9282), done(1, 0x8000_0002, 0x8000_0000));
}

/// The register's number, the operation, whether it writes, rd, the operand, the value read, and the
/// floors of cycle, time and instret, which are 5 before.
#[test]
fn floors_of_counters(rt: HostRuntime) {
    for (number, op, writes, rd, operand, value, floors) in [
        (0xC00, CsrOp::Set, false, 1, 0, 100, [100, 5, 5]),
        (0xC01, CsrOp::Set, false, 1, 0, 9, [5, 9, 5]),
        (0xC02, CsrOp::Set, false, 0, 0, 0, [5, 5, 5]),
        (0xB00, CsrOp::Write, true, 0, 3, 0, [3, 5, 5]),
        (0xB00, CsrOp::Write, true, 1, 3, 100, [3, 5, 5]),
        (0xB02, CsrOp::Set, true, 1, 2, 9, [5, 5, 11]),
        (0xB02, CsrOp::Set, true, 0, 2, 0, [5, 5, 5]),
        (0xB02, CsrOp::Set, true, 0, 8, 0, [5, 5, 8]),
        (0xB00, CsrOp::Clear, true, 0, 1, 0, [0, 5, 5]),
        (0xB00, CsrOp::Clear, true, 1, 1, 9, [8, 5, 5]),
    ] {
        assert!(rt; rd < 32);
        let mut a = reset(0);
        a.csrs = Csrs {
            cycle_floor: 5,
            time_floor: 5,
            instret_floor: 5,
            ..Csrs::reset()
        };
        let plan = Planned::Csr {
            number,
            op,
            operand,
            reads: true,
            writes,
            rd,
        };
        finish(&mut a, 4, plan, Answer::Value(value));
        assert_eq!(rt;
            [a.csrs.cycle_floor, a.csrs.time_floor, a.csrs.instret_floor],
            floors,
            "{number:x}"
        );
    }
}

#[test]
fn finished_plans(rt: HostRuntime) {
    let mut a = start(&rt, MACHINE, 0xA_0000_0000);
    a.csrs.mepc = 0x8000_0080;
    let load = Planned::NeedsLoad {
        va: 0x8000_0100,
        width: 8,
        signed: true,
        rd: 8,
    };
    finish(&mut a, 4, load, Answer::Value(77));
    assert_eq!(rt; (a.pc, a.x[8]), (0x8000_0004, 77));
    let store = Planned::NeedsStore {
        va: 0x8000_0100,
        width: 8,
        value: 7,
    };
    finish(&mut a, 2, store, Answer::Nothing);
    let jump = Planned::Done {
        rd: 0,
        value: 9,
        next: 0x8000_0020,
    };
    finish(&mut a, 4, jump, Answer::Nothing);
    finish(&mut a, 4, Planned::FenceI, Answer::Nothing);
    assert_eq!(rt; (a.pc, a.x[0]), (0x8000_0024, 0));
    finish(
        &mut a,
        4,
        Planned::Returns { from_m: true },
        Answer::Nothing,
    );
    assert_eq!(rt;
        (a.pc, a.mode, a.csrs.mstatus),
        (0x8000_0080, USER, 0xA_0000_0080)
    );
}

/// mie and mstatus are set as by csrrw x0,mie,x1 and csrrsi x0,mstatus,8, and then the timer of M
/// interrupts.
#[test]
fn a_timer_interrupt(rt: HostRuntime) {
    let mut a = reset(0);
    let mie = Planned::Csr {
        number: 0x304,
        op: CsrOp::Write,
        operand: 0x80,
        reads: false,
        writes: true,
        rd: 0,
    };
    finish(&mut a, 4, mie, Answer::Nothing);
    assert_eq!(rt; interrupt_enabled(&a.csrs, a.mode), 0);
    let mstatus = Planned::Csr {
        number: 0x300,
        op: CsrOp::Set,
        operand: 8,
        reads: true,
        writes: true,
        rd: 0,
    };
    finish(&mut a, 4, mstatus, Answer::Value(0xA_0000_0000));
    assert_eq!(rt; interrupt_enabled(&a.csrs, a.mode), 0x80);
    trap(&mut a, 0x8000_0000_0000_0007, 0);
    assert_eq!(rt; (a.pc, a.mode, a.csrs.mepc), (0, MACHINE, 0x8000_0008));
    assert_eq!(rt;
        (a.csrs.mstatus, a.csrs.mcause),
        (0xA_0000_1880, 0x8000_0000_0000_0007)
    );
}
