use crate::{Misfit, drains, store_data};
use dt_record::Reason;
use dt_stores::{OwnStore, Stores};
use std::alloc::{AllocError, Global};
use std::test::Fail;

const LINE: u64 = 0x8000_0100;

const FIRST: OwnStore = OwnStore {
    seq: 2,
    addr: LINE,
    width: 8,
    value: 7,
};

const SECOND: OwnStore = OwnStore {
    seq: 3,
    addr: 0x8000_0108,
    width: 8,
    value: 7,
};

/// Two doublewords of 7, one after the other on a line.
fn two_stores(alloc: Global) -> Result<Stores, AllocError> {
    let mut stores = Stores::new(alloc);
    stores.commit(FIRST)?;
    stores.commit(SECOND)?;
    Ok(stores)
}

fn sevens(places: &[usize]) -> [u8; 64] {
    let mut bytes = [0; 64];
    for place in places {
        if *place < 64 {
            bytes[*place] = 7;
        }
    }
    bytes
}

fn refused(reason: Reason, expected: u64, found: u64) -> Result<(), Misfit> {
    Err(Misfit {
        reason,
        expected,
        found,
    })
}

#[test]
fn other_data_is_refused(rt: HostRuntime) -> Result<(), Fail> {
    let stores = two_stores(rt.alloc())?;
    assert_eq!(rt;
        drains(&stores, LINE, 0xff, 2, &sevens(&[0]), 4),
        refused(Reason::DrainData, 0xffff, 0xff)
    );
    assert_eq!(rt;
        drains(&stores, LINE, 0xffff, 2, &sevens(&[0, 9]), 4),
        refused(Reason::DrainData, 7, 0)
    );
    assert_eq!(rt; store_data(7, 7), Ok(()));
    assert_eq!(rt; store_data(7, 8), refused(Reason::StoreData, 7, 8));
    Ok(())
}
