ghost use Rattle.std.specs.Prelude.{◌≡◌, IsTrue};
ghost use Rattle.dt_sources.specs.Finding.{is_load_place};

use crate::translations::many_writes;
use dt_local::Local;
use dt_record::{Key, LoadAsk, Origin, Sources};
use dt_sources::{Found, find};
use dt_stores::Stores;
use std::test::Fail;

/// A load by hart 0, in the cycle of all writes, of the double whose low byte the last write alone
/// changes.
fn ask(raw: u64) -> LoadAsk
    ensures place { IsTrue (is_load_place result) }
    ensures at { result.at ≡ 20 }
    ensures stamp { result.key.stamp ≡ 20 }
{
    LoadAsk {
        key: Key {
            stamp: 20,
            hart: 0,
            seq: 0,
        },
        at: 20,
        addr: 0x8000_3000,
        width: 8,
        raw,
    }
}

/// The load may see every moment. Its value stands there from the last write on, or up to it, or
/// nowhere.
#[test]
fn stretches_are_skipped_by_loads(rt: HostRuntime) -> Result<(), Fail> {
    let moments = many_writes(&rt, rt.alloc())?;
    let stores = Stores::new(rt.alloc());
    let local = Local::new(rt.alloc());
    let mut from = [Origin::Image; 8];
    let image = Found::At {
        moment: 0,
        sources: Sources { count: 8, from },
    };
    from[0] = Origin::Write(Key {
        stamp: 20,
        hart: 1,
        seq: 499_999,
    });
    let last = Found::At {
        moment: 500_000,
        sources: Sources { count: 8, from },
    };
    for _ in 0..100_000 {
        assert!(rt; find(&moments, &stores, &local, ask(7)) == last);
        assert!(rt; find(&moments, &stores, &local, ask(0)) == image);
        assert!(rt; find(&moments, &stores, &local, ask(8)) == Found::Nowhere);
    }
    Ok(())
}
