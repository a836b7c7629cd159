ghost use Rattle.std.specs.Prelude.{◌≡◌, ◌≤◌, ◌%◌, length};
ghost use Rattle.dt_csr.specs.Kept.{NamesMode};
ghost use Rattle.dt_step.specs.State.{IsArch};
ghost use Rattle.dt_traps.specs.Traps.{SpansEndWithin};

use crate::{TrapEvent, TrapSpans, access_address, trap};
use dt_checks::FetchSpans;
use dt_csr::{MACHINE, SUPERVISOR};
use dt_record::{Image, Key, Write};
use dt_rules::{Letters, Misfit, NO_LETTERS, NO_NUMBER, Reason};
use dt_step::{Arch, reset};
use dt_versions::{Moments, Span};
use std::alloc::{AllocError, Global};
use std::process::Abort;
use std::test::Fail;

fn event(pc: u64, bits: u32, cause: u64, tval: u64) -> TrapEvent {
    TrapEvent {
        pc,
        bits,
        cause,
        tval,
    }
}

/// Hart 0 with this pc, and with x5 and x10 at an address.
fn hart(rt: &impl Abort, pc: u64, mode: u8, address: u64) -> Arch
    ensures arch { IsArch result }
    ensures even { result.pc % 2 ≡ 0 }
{
    assert!(rt; mode == SUPERVISOR || mode == MACHINE);
    assert!(rt; pc % 2 == 0);
    let mut a = reset(0);
    a.pc = pc;
    a.x[5] = address;
    a.x[10] = address;
    a.mode = mode;
    a
}

/// An image that begins with the instruction, and writes over it.
fn made(
    rt: &impl Abort,
    alloc: Global,
    bits: u32,
    writes: &[Write],
) -> Result<Moments, AllocError> {
    let image = Vec::from_slice(alloc, &bits.to_le_bytes())?;
    let mut moments = Moments::empty(alloc, Image::of(image));
    for w in writes {
        assert!(rt; moments.can_add(w));
        moments.add(*w)?;
    }
    Ok(moments)
}

/// A write of 8 bytes at a place of a line.
fn write(line: u64, place: usize, value: u64) -> Write
    requires { place ≤ 56 }
{
    let mut bytes = [0; 64];
    bytes[place..place + 8].copy_from_slice(&value.to_le_bytes());
    Write {
        key: Key {
            stamp: 20,
            hart: 0,
            seq: 9,
        },
        line,
        mask: 0xff << place,
        bytes,
    }
}

/// The judgement where the spans of both halfwords and of the access begin at these moments and end
/// at the last moment.
fn judged(
    rt: &impl Abort,
    moments: &Moments,
    begin: (u32, u32, u32),
    a: &Arch,
    e: TrapEvent,
) -> Result<Letters, Misfit>
    requires arch { IsArch a.now }
    requires even { a.now.pc % 2 ≡ 0 }
{
    let (first, second, access) = begin;
    let last = moments.count();
    let span = |first| Span { first, last };
    let fetch = FetchSpans {
        first: span(first),
        second: span(second),
        since: span(0),
    };
    let spans = TrapSpans {
        fetch,
        access: span(access),
    };
    assert!(rt; e.bits % 4 == 3 || e.bits < 0x1_0000 || e.cause == 1 || e.cause == 12);
    trap(moments, spans, a, e)
}

fn refused(reason: Reason, expected: u64, found: u64) -> Result<Letters, Misfit> {
    Err(Misfit {
        reason,
        expected,
        found,
    })
}

fn plain() -> Result<Letters, Misfit> {
    Ok(NO_LETTERS)
}

fn stale() -> Result<Letters, Misfit> {
    Ok(Letters {
        p: true,
        ..NO_LETTERS
    })
}

fn zeroed() -> Result<Letters, Misfit> {
    Ok(Letters {
        z: true,
        ..NO_LETTERS
    })
}

/// EBREAK; a pattern with no meaning; a load of 8 bytes at an odd address; ADDI.
#[test]
fn causes_that_instructions_raise_by_themselves(rt: HostRuntime) -> Result<(), Fail> {
    let pc = 0x8000_0000;
    let a = hart(&rt, pc, MACHINE, 0x8000_0100);
    for (e, expected) in [
        (event(pc, 0x0010_0073, 3, pc), plain()),
        (event(pc, 0x0010_0073, 3, 0), zeroed()),
        (event(pc, 0x0010_0073, 3, 4), refused(Reason::Tval, pc, 4)),
        (event(pc, 0x0010_0073, 2, 0), refused(Reason::Cause, 3, 2)),
        (
            event(pc + 4, 0x0010_0073, 3, pc),
            refused(Reason::Pc, pc, pc + 4),
        ),
        (event(pc, 0xffff_ffff, 2, 0xffff_ffff), plain()),
        (event(pc, 0x0012_b403, 4, 0x8000_0101), plain()),
        (
            event(pc, 0x0012_b403, 5, 0x8000_0101),
            refused(Reason::Cause, 4, 5),
        ),
        (
            event(pc, 0x0050_0093, 2, 0),
            refused(Reason::Cause, NO_NUMBER, 2),
        ),
    ] {
        let moments = made(&rt, rt.alloc(), e.bits, &[])?;
        let answer = judged(&rt, &moments, (0, 0, 0), &a, e);
        assert_eq!(rt; answer, expected, "{e:?}");
    }
    let moments = made(&rt, rt.alloc(), 0x0010_0073, &[])?;
    let e = event(pc, 0x0011_0073, 3, pc);
    let answer = judged(&rt, &moments, (0, 0, 0), &a, e);
    assert_eq!(rt; answer, refused(Reason::Fetch, pc + 2, 0x11));
    Ok(())
}

/// The write maps the gigapage at 80000000 to itself, for a load by S and for its fetch.
#[test]
fn page_faults_of_older_moments(rt: HostRuntime) -> Result<(), Fail> {
    let bits = 0x0002_b403;
    let moments = made(
        &rt,
        rt.alloc(),
        bits,
        &[write(0x8000_2000, 16, 0x2000_00cf)],
    )?;
    let (pc, va) = (0x8000_0000, 0x8000_3000);
    let mut a = hart(&rt, pc, SUPERVISOR, va);
    a.csrs.satp = 0x8000_0000_0008_0002;
    for (begin, e, expected) in [
        ((0, 0, 0), event(pc, bits, 13, va), stale()),
        (
            (0, 0, 1),
            event(pc, bits, 13, va),
            refused(Reason::Cause, NO_NUMBER, 13),
        ),
        ((0, 0, 0), event(pc, 0, 12, pc), stale()),
        (
            (1, 0, 0),
            event(pc, 0, 12, pc),
            refused(Reason::Cause, NO_NUMBER, 12),
        ),
        ((1, 0, 0), event(pc, 0xb403, 12, pc + 2), stale()),
        (
            (0, 1, 0),
            event(pc, 0xb403, 12, pc + 2),
            refused(Reason::Cause, NO_NUMBER, 12),
        ),
    ] {
        let answer = judged(&rt, &moments, begin, &a, e);
        assert_eq!(rt; answer, expected, "{e:?} from {begin:?}");
    }
    Ok(())
}

#[test]
fn addresses_that_instructions_access(rt: HostRuntime) {
    let a = hart(&rt, 0x8000_0000, MACHINE, 0x8000_0100);
    for (bits, expected) in [
        (0x1002_b403, Some(0x8000_0200)),
        (0x1072_b023, Some(0x8000_0200)),
        (0x1005_35af, Some(0x8000_0100)),
        (0x0012_b403, None),
        (0x0050_0093, None),
        (0xffff_ffff, None),
        (0x0001_0000, None),
    ] {
        assert_eq!(rt; access_address(&a, bits), expected, "{bits:x}");
    }
}
