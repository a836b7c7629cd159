ghost use Rattle.std.specs.Prelude.{◌≡◌, IsTrue};
ghost use Rattle.dt_sources.specs.Finding.{is_load_place};

use crate::{
    LoadAsk, Misfit, Passed, Sources, device_value, load_ask, loads_have_one_answer, order,
    ram_load,
};
use dt_local::Local;
use dt_record::{Image, Key, Origin, Write};
use dt_rules::{NO_LETTERS, Reason};
use dt_stores::{OwnStore, Stores};
use dt_versions::Moments;
use std::alloc::{AllocError, Global};
use std::test::Fail;

const LINE: u64 = 0x8000_0100;

fn key(stamp: u64, hart: u8, seq: u32) -> Key
    ensures { result ≡ record { stamp = stamp; hart = hart; seq = seq } }
{
    Key { stamp, hart, seq }
}

/// A load of the double at the start of the line.
fn double(key: Key, at: u64, value: u64) -> LoadAsk
    ensures place { IsTrue (is_load_place result) }
    ensures same { (result.key ≡ key) × (result.at ≡ at) × (result.addr ≡ LINE) }
{
    load_ask(key, at, LINE, 8, value)
}

/// Hart 0's drain of the double 7 at the start of the line, over an empty image.
fn drained(alloc: Global) -> Result<Moments, AllocError> {
    let mut bytes = [0; 64];
    bytes[0] = 7;
    let w = Write {
        key: key(10, 0, 5),
        line: LINE,
        mask: 0xff,
        bytes,
    };
    let mut moments = Moments::empty(alloc, Image::of(Vec::new(alloc)));
    if moments.can_add(&w) {
        moments.add(w)?;
    }
    Ok(moments)
}

fn everywhere(from: Origin) -> Sources {
    Sources {
        count: 8,
        from: [from; 8],
    }
}

fn misfit(reason: Reason, expected: u64, found: u64) -> Misfit {
    Misfit {
        reason,
        expected,
        found,
    }
}

#[test]
fn a_noted_load_is_known(rt: HostRuntime) -> Result<(), Fail> {
    let moments = drained(rt.alloc())?;
    let stores = Stores::new(rt.alloc());
    let mut local = Local::new(rt.alloc());
    let sources = everywhere(Origin::Write(key(10, 0, 5)));
    local.reserve(LINE, 0xff)?;
    local.note(LINE, 0xff, &[key(10, 0, 5); 64]);
    let known = Passed {
        letters: NO_LETTERS,
        sources,
    };
    for (value, answer) in [(7, Ok(known)), (0, Err(misfit(Reason::LoadSource, 7, 0)))] {
        let ask = double(key(10, 1, 4), 10, value);
        assert_eq!(rt;
            ram_load(&moments, &stores, &local, ask, true, value),
            answer
        );
    }
    Ok(())
}

/// The double 7 is stored at the start of the line, before a fence of all accesses.
fn fenced(alloc: Global) -> Result<Stores, AllocError> {
    let mut stores = Stores::new(alloc);
    stores.commit(OwnStore {
        seq: 2,
        addr: LINE,
        width: 8,
        value: 7,
    })?;
    stores.fence(true, true);
    Ok(stores)
}

#[test]
fn a_load_after_a_fence(rt: HostRuntime) -> Result<(), Fail> {
    let mut stores = fenced(rt.alloc())?;
    assert_eq!(rt; order(&stores, 0, 8), Err(misfit(Reason::Order, 2, 8)));
    assert_eq!(rt; order(&stores, 9, 8), Err(misfit(Reason::Order, 9, 8)));
    let drained = key(6, 0, 4);
    assert!(rt; stores.can_drain(drained));
    stores.drain(drained, LINE, 1);
    assert_eq!(rt; order(&stores, 0, 6), Ok(()));
    assert_eq!(rt; order(&stores, 0, 5), Err(misfit(Reason::Order, 2, 5)));
    Ok(())
}

#[test]
fn a_device_gives_an_extension_of_its_low_bytes(rt: HostRuntime) {
    let negative = 0xffff_ffff_ffff_ff80;
    assert_eq!(rt;
        device_value(1, true, 0x80),
        Err(misfit(Reason::Adopt, negative, 0x80))
    );
    assert_eq!(rt; device_value(1, true, negative), Ok(()));
    loads_have_one_answer();
}
