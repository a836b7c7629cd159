ghost use Rattle.std.specs.Prelude.{IsTrue};
ghost use Rattle.dt_record.specs.Lawful.{is_atomic_place};

use crate::{
    AtomicAccess, AtomicOp, Misfit, Passed, allowed_atomics_are_exact, atomic,
    atomics_have_one_answer, first_writes_decide_atomics,
};
use dt_alu::AmoOp;
use dt_local::Local;
use dt_record::{Image, Key, Letters, Origin, Reason, Sources, Write};
use dt_rules::{NO_LETTERS, NO_SOURCES};
use dt_stores::{OwnStore, Stores};
use dt_versions::Moments;
use std::alloc::{AllocError, Global};
use std::test::Fail;

const LINE: u64 = 0x8000_0100;

const PLAIN: Passed = Passed {
    letters: NO_LETTERS,
    sources: NO_SOURCES,
};

const SETTLED: Passed = Passed {
    letters: Letters {
        s: true,
        ..NO_LETTERS
    },
    sources: NO_SOURCES,
};

const DRAIN: Key = Key {
    stamp: 10,
    hart: 0,
    seq: 5,
};

fn refused(reason: Reason, expected: u64, found: u64) -> Result<Passed, Misfit> {
    Err(Misfit {
        reason,
        expected,
        found,
    })
}

/// A word that was read whole from one place.
fn read(l: bool, from: Origin) -> Result<Passed, Misfit> {
    let mut sources = Sources {
        count: 4,
        from: [Origin::Image; 8],
    };
    for i in 0..4 {
        sources.from[i] = from;
    }
    Ok(Passed {
        letters: Letters { l, ..NO_LETTERS },
        sources,
    })
}

fn nothing_written(alloc: Global) -> Moments {
    Moments::empty(alloc, Image::of(Vec::new(alloc)))
}

/// Hart 0's drain of the word -7 at the start of the line, over an empty image.
fn drained(alloc: Global) -> Result<Moments, AllocError> {
    let mut bytes = [0; 64];
    bytes[0] = 0xf9;
    for i in 1..4 {
        bytes[i] = 0xff;
    }
    let w = Write {
        key: DRAIN,
        line: LINE,
        mask: 0xf,
        bytes,
    };
    let mut moments = nothing_written(alloc);
    if moments.can_add(&w) {
        moments.add(w)?;
    }
    Ok(moments)
}

/// An access of the word at the start of the line, where rs2 has 5.
fn word(op: AtomicOp, value: u64, wrote: bool, new: u64) -> AtomicAccess
    ensures { IsTrue (is_atomic_place result.paddr result.width) }
{
    AtomicAccess {
        op,
        width: 4,
        release: false,
        operand: 5,
        paddr: LINE,
        value,
        said_width: 4,
        wrote,
        new,
    }
}

/// Hart 1's SC of a 0 to the doubleword at the start of the line, which it has reserved.
fn sc(alloc: Global, m: &Moments, value: u64, wrote: bool) -> Result<Passed, Misfit> {
    let made = Key {
        stamp: 6,
        hart: 1,
        seq: 5,
    };
    let key = Key {
        stamp: 15,
        hart: 1,
        seq: 6,
    };
    let x = AtomicAccess {
        op: AtomicOp::Sc,
        width: 8,
        release: false,
        operand: 0,
        paddr: LINE,
        value,
        said_width: 8,
        wrote,
        new: 0,
    };
    let stores = Stores::new(alloc);
    let local = Local::new(alloc);
    atomic(m, &stores, &local, Some((LINE, made)), key, x)
}

#[test]
fn an_sc_and_another_harts_write(rt: HostRuntime) -> Result<(), Fail> {
    let alloc = rt.alloc();
    atomics_have_one_answer();
    first_writes_decide_atomics();
    allowed_atomics_are_exact();
    let alone = nothing_written(alloc);
    let touched = drained(alloc)?;
    let zero = refused(Reason::AtomicValue, 1, 0);
    for (value, wrote, over_write, without) in [
        (0, true, refused(Reason::ScSuccess, 1, 0), Ok(PLAIN)),
        (1, false, Ok(PLAIN), Ok(SETTLED)),
        (0, false, zero, zero),
    ] {
        assert_eq!(rt; sc(alloc, &touched, value, wrote), over_write);
        assert_eq!(rt; sc(alloc, &alone, value, wrote), without);
    }
    Ok(())
}

/// Hart 1's addition of 5 to the word at the start of the line.
fn add(alloc: Global, m: &Moments, stamp: u64, value: u64, new: u64) -> Result<Passed, Misfit> {
    let key = Key {
        stamp,
        hart: 1,
        seq: 3,
    };
    let x = word(AtomicOp::Amo(AmoOp::Add), value, new != 0, new);
    let stores = Stores::new(alloc);
    let local = Local::new(alloc);
    atomic(m, &stores, &local, None, key, x)
}

#[test]
fn an_amo_reads_and_writes(rt: HostRuntime) -> Result<(), Fail> {
    let alloc = rt.alloc();
    let m = drained(alloc)?;
    let old = 0xffff_ffff_ffff_fff9;
    let sum = 0xffff_fffe;
    for (stamp, value, new, answer) in [
        (10, old, sum, read(true, Origin::Write(DRAIN))),
        (9, 0, 5, read(false, Origin::Image)),
        (
            10,
            0xffff_fff9,
            sum,
            refused(Reason::AtomicValue, old, 0xffff_fff9),
        ),
        (10, old, 5, refused(Reason::AtomicWrite, sum, 5)),
        (10, old, 0, refused(Reason::AtomicWrite, 1, 0)),
    ] {
        assert_eq!(rt; add(alloc, &m, stamp, value, new), answer);
    }
    Ok(())
}

/// A doubleword is stored at an address, before a fence that orders writes, or reads, after it.
fn fenced(alloc: Global, addr: u64, ww: bool, wr: bool) -> Result<Stores, AllocError>
    requires { IsTrue (is_atomic_place addr 8) }
{
    let mut stores = Stores::new(alloc);
    stores.commit(OwnStore {
        seq: 2,
        addr,
        width: 8,
        value: 7,
    })?;
    stores.fence(ww, wr);
    Ok(stores)
}

/// An access of the word at the start of the line, by hart 0 over an empty image.
fn after(alloc: Global, s: &Stores, x: AtomicAccess) -> Result<Passed, Misfit> {
    let key = Key {
        stamp: 4,
        hart: 0,
        seq: 3,
    };
    let local = Local::new(alloc);
    let m = nothing_written(alloc);
    let x = AtomicAccess {
        paddr: LINE,
        width: 4,
        ..x
    };
    atomic(&m, s, &local, None, key, x)
}

#[test]
fn atomics_wait_for_stores(rt: HostRuntime) -> Result<(), Fail> {
    let alloc = rt.alloc();
    let waits = refused(Reason::Undrained, 2, 3);
    let image = read(false, Origin::Image);
    let lr = word(AtomicOp::Lr, 0, false, 0);
    let swap = word(AtomicOp::Amo(AmoOp::Swap), 0, true, 5);
    let failed = word(AtomicOp::Sc, 1, false, 0);
    let release = AtomicAccess {
        release: true,
        ..lr
    };
    let failed_release = AtomicAccess {
        release: true,
        ..failed
    };
    let on_line = fenced(alloc, LINE + 8, false, false)?;
    let elsewhere = fenced(alloc, LINE + 64, false, false)?;
    let before_reads = fenced(alloc, LINE + 64, false, true)?;
    let before_writes = fenced(alloc, LINE + 64, true, false)?;
    for (stores, x, answer) in [
        (&on_line, failed, waits),
        (&elsewhere, release, waits),
        (&elsewhere, failed_release, Ok(PLAIN)),
        (&before_reads, lr, waits),
        (&before_reads, failed, Ok(PLAIN)),
        (&before_writes, swap, waits),
        (&before_writes, lr, image),
    ] {
        assert_eq!(rt; after(alloc, stores, x), answer);
    }
    Ok(())
}
