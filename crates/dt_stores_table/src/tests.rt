use crate::plain;
use crate::runs::{are_same, go_on, next};
use dt_stores::{Stores, marks_stay_live};
use std::test::Fail;

#[test]
fn runs_are_as_plain_ones(rt: HostRuntime) -> Result<(), Fail> {
    for case in 0..1000 {
        let mut stores = Stores::new(rt.alloc());
        let mut plain = plain::new(rt.alloc());
        let seed = next(case);
        let same = go_on(rt.alloc(), &mut stores, &mut plain, seed, 5)?;
        assert!(rt; same, "case {case}");
        let same = go_on(rt.alloc(), &mut stores, &mut plain, next(seed), 15)?;
        assert!(rt; same, "case {case}, later");
    }
    Ok(())
}

#[test]
fn undone_runs_are_as_plain_copies(rt: HostRuntime) -> Result<(), Fail> {
    for case in 0..1000 {
        marks_stay_live();
        let mut stores = Stores::new(rt.alloc());
        let mut plain = plain::new(rt.alloc());
        let seed = next(case + 1000);
        let _ = go_on(rt.alloc(), &mut stores, &mut plain, seed, 5)?;
        let m = stores.mark();
        let mut marked = plain::copy(rt.alloc(), &plain)?;
        let same = go_on(rt.alloc(), &mut stores, &mut plain, next(seed), 15)?;
        assert!(rt; same, "case {case}, marked");
        let copy = stores.copy(rt.alloc())?;
        stores.undo_to(m);
        let same = are_same(rt.alloc(), &stores, &marked)?;
        assert!(rt; same, "case {case}, undone");
        let same = are_same(rt.alloc(), &copy, &plain)?;
        assert!(rt; same, "case {case}, copied");
        stores.forget(m);
        let same = go_on(rt.alloc(), &mut stores, &mut marked, next(next(seed)), 15)?;
        assert!(rt; same, "case {case}, undone and gone on");
    }
    Ok(())
}
