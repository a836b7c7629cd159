ghost use Rattle.std.specs.Prelude.{◌≡◌, IsTrue};
ghost use Rattle.dt_sources.specs.Finding.{is_load_place};

use crate::{
    Found, LoadAsk, Origin, Sources, find, fronts_have_sources, knowing_goes_on, known_fit_is_fit,
    known_is_floor, least_choice_goes_on, least_choice_is_least, notes_are_added, refusal_is_exact,
};
use dt_local::Local;
use dt_record::{Image, Key, Write};
use dt_stores::{OwnStore, Stores};
use dt_versions::Moments;
use std::alloc::{AllocError, Global};
use std::test::Fail;

const LINE: u64 = 0x8000_0100;

fn key(stamp: u64, hart: u8, seq: u32) -> Key
    ensures { result ≡ record { stamp = stamp; hart = hart; seq = seq } }
{
    Key { stamp, hart, seq }
}

/// Hart 0's drain of the double 7 at the start of the line, over an image.
fn drained(alloc: Global, image: &[u8]) -> Result<Moments, AllocError> {
    let mut bytes = [0; 64];
    bytes[0] = 7;
    let w = Write {
        key: key(10, 0, 5),
        line: LINE,
        mask: 0xff,
        bytes,
    };
    let mut moments = Moments::empty(alloc, image_of(alloc, image)?);
    if moments.can_add(&w) {
        moments.add(w)?;
    }
    Ok(moments)
}

fn image_of(alloc: Global, bytes: &[u8]) -> Result<Image, AllocError> {
    let bytes = Vec::from_slice(alloc, &bytes[..bytes.len().min(1024)])?;
    Ok(Image::of(bytes))
}

/// A load of the double at the start of the line.
fn double(key: Key, at: u64, raw: u64) -> LoadAsk
    ensures place { IsTrue (is_load_place result) }
    ensures same { (result.key ≡ key) × (result.at ≡ at) × (result.addr ≡ LINE) }
{
    LoadAsk {
        key,
        at,
        addr: LINE,
        width: 8,
        raw,
    }
}

fn everywhere(moment: u32, from: Origin) -> Found {
    Found::At {
        moment,
        sources: Sources {
            count: 8,
            from: [from; 8],
        },
    }
}

#[test]
fn a_drain_of_the_same_cycle_is_seen_or_not(rt: HostRuntime) -> Result<(), Fail> {
    let moments = drained(rt.alloc(), &[])?;
    let stores = Stores::new(rt.alloc());
    let local = Local::new(rt.alloc());
    let written = everywhere(1, Origin::Write(key(10, 0, 5)));
    let image = everywhere(0, Origin::Image);
    for (stamp, at, raw, found) in [
        (10, 10, 7, written),
        (10, 10, 0, image),
        (12, 12, 7, written),
        (12, 12, 0, Found::Nowhere),
        (12, 9, 0, image),
        (12, 9, 7, Found::Nowhere),
        (10, 10, 0x107, Found::Nowhere),
    ] {
        assert!(rt; at <= stamp);
        assert_eq!(rt;
            find(&moments, &stores, &local, double(key(stamp, 1, 3), at, raw)),
            found,
            "at {at}, value {raw}"
        );
    }
    Ok(())
}

/// A local memory that knows a key for the first byte of the line.
fn knowing(alloc: Global, known: Key) -> Result<Local, AllocError> {
    let mut local = Local::new(alloc);
    local.reserve(LINE, 1)?;
    local.note(LINE, 1, &[known; 64]);
    Ok(local)
}

#[test]
fn a_load_does_not_go_back_behind_an_earlier_one(rt: HostRuntime) -> Result<(), Fail> {
    let moments = drained(rt.alloc(), &[])?;
    let stores = Stores::new(rt.alloc());
    let written = everywhere(1, Origin::Write(key(10, 0, 5)));
    // What is known, the loaded value, and what is found.
    for (known, raw, found) in [
        (key(10, 0, 5), 7, written),
        (key(10, 0, 5), 0, Found::Nowhere),
        (key(10, 0, 6), 7, Found::Nowhere),
    ] {
        let local = knowing(rt.alloc(), known)?;
        let ask = double(key(10, 1, 4), 10, raw);
        assert_eq!(rt; find(&moments, &stores, &local, ask), found);
    }
    Ok(())
}

/// An image with the bytes from 0x11 to 0x88 at the line.
fn counting(alloc: Global) -> Result<Moments, AllocError> {
    let mut image = [0; 264];
    for i in 0..8 {
        image[256 + i] = 0x11 * (i as u8 + 1);
    }
    Ok(Moments::empty(alloc, image_of(alloc, &image)?))
}

/// The word 7 is stored over the first half of the line's first double.
fn with_word(alloc: Global) -> Result<Stores, AllocError> {
    let mut stores = Stores::new(alloc);
    stores.commit(OwnStore {
        seq: 2,
        addr: LINE,
        width: 4,
        value: 7,
    })?;
    Ok(stores)
}

fn half_forwarded() -> Found {
    let mut from = [Origin::Image; 8];
    for i in 0..4 {
        from[i] = Origin::Store(2);
    }
    Found::At {
        moment: 0,
        sources: Sources { count: 8, from },
    }
}

#[test]
fn a_word_is_forwarded_into_a_double(rt: HostRuntime) -> Result<(), Fail> {
    let moments = counting(rt.alloc())?;
    let stores = with_word(rt.alloc())?;
    let local = knowing(rt.alloc(), key(9, 1, 0))?;
    for (raw, found) in [
        (0x8877_6655_0000_0007, half_forwarded()),
        (0x8877_6655_4433_2211, Found::Nowhere),
    ] {
        let ask = double(key(4, 0, 3), 4, raw);
        assert_eq!(rt; find(&moments, &stores, &local, ask), found);
    }
    Ok(())
}

#[test]
fn a_drained_word_stands_where_its_drain_stands(rt: HostRuntime) -> Result<(), Fail> {
    let moments = counting(rt.alloc())?;
    let mut stores = with_word(rt.alloc())?;
    let drained = key(6, 0, 4);
    assert!(rt; stores.can_drain(drained));
    stores.drain(drained, LINE, 1);
    for (known, found) in [
        (key(6, 0, 4), half_forwarded()),
        (key(6, 1, 0), Found::Nowhere),
    ] {
        let local = knowing(rt.alloc(), known)?;
        let ask = double(key(8, 0, 5), 5, 0x8877_6655_0000_0007);
        assert_eq!(rt; find(&moments, &stores, &local, ask), found);
    }
    Ok(())
}

#[test]
fn a_narrow_load_has_as_many_sources(rt: HostRuntime) -> Result<(), Fail> {
    let moments = drained(rt.alloc(), &[])?;
    let stores = Stores::new(rt.alloc());
    let local = Local::new(rt.alloc());
    let mut from = [Origin::Image; 8];
    from[0] = Origin::Write(key(10, 0, 5));
    let sources = Sources { count: 1, from };
    for (raw, found) in [
        (7, Found::At { moment: 1, sources }),
        (0x107, Found::Nowhere),
    ] {
        let ask = LoadAsk {
            width: 1,
            ..double(key(12, 1, 3), 12, raw)
        };
        assert_eq!(rt; find(&moments, &stores, &local, ask), found);
    }
    Ok(())
}

#[test]
fn laws_are_called() {
    least_choice_is_least();
    refusal_is_exact();
    fronts_have_sources();
    least_choice_goes_on();
    known_is_floor();
    known_fit_is_fit();
    knowing_goes_on();
    notes_are_added();
}
