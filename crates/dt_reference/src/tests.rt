ghost use Rattle.std.specs.Prelude.{◌≡◌};
ghost use Rattle.dt_step.specs.State.{IsArch};

use crate::{advance, can_follow, meaning, start};
use dt_decode::Instr;
use dt_record::{Body, Record, Retire, lawful};
use dt_step::Arch;
use std::process::Abort;

fn commit(pc: u64, bits: u32, value: u64) -> Body {
    let retire = Retire { pc, bits, value };
    Body::Commit { retire }
}

/// Takes the state on by a record that may follow.
fn follow(rt: &impl Abort, a: &mut Arch, body: Body)
    requires { IsArch a.old }
    ensures { IsArch a.new }
{
    let event = Record {
        stamp: 1,
        hart: 1,
        body,
    };
    assert!(rt; lawful(&event) && can_follow(a, &event));
    advance(a, &event);
}

#[test]
fn sixteen_bit_instructions_mean_their_counterparts(rt: HostRuntime) {
    assert_eq!(rt; meaning(0x8082), meaning(0x0000_8067));
    assert_eq!(rt; meaning(0x9002), Some(Instr::Ebreak));
    assert_eq!(rt; meaning(0x0000), None);
    assert_eq!(rt; meaning(0xffff_ffff), None);
}

#[test]
fn a_hart_goes_on_by_its_records(rt: HostRuntime) {
    let mut a = start(1, false);
    follow(&rt, &mut a, commit(0x8000_0000, 0x0000_0297, 0x8000_0000));
    follow(&rt, &mut a, commit(0x8000_0004, 0xf140_2373, 1));
    follow(&rt, &mut a, commit(0x8000_0008, 0x0003_1663, 0));
    assert_eq!(rt; (a.pc, a.x[5], a.x[6]), (0x8000_0014, 0x8000_0000, 1));
    follow(&rt, &mut a, commit(0x8000_0014, 0xc000_20f3, 0x64));
    assert_eq!(rt; (a.x[1], a.csrs.cycle_floor), (0x64, 0x64));
    follow(&rt, &mut a, Body::Beat);
    let trap = Body::Trap {
        pc: 0x8000_0018,
        bits: 0x0010_0073,
        cause: 3,
        tval: 0,
    };
    follow(&rt, &mut a, trap);
    assert_eq!(rt; (a.pc, a.csrs.mepc, a.csrs.mcause), (0, 0x8000_0018, 3));
}

#[test]
fn what_raises_cannot_follow(rt: HostRuntime) {
    let a = start(0, true);
    assert!(rt; a.csrs.wide);
    for (bits, can) in [
        (0x0000_0013, true),
        (0x0000_0073, false),
        (0xffff_ffff, false),
    ] {
        let event = Record {
            stamp: 0,
            hart: 0,
            body: commit(0x8000_0000, bits, 0),
        };
        assert!(rt; lawful(&event));
        assert_eq!(rt; can_follow(&a, &event), can, "{bits:x}");
    }
}
