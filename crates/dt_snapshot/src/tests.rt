use crate::{Crossing, Cuts, Keeper, Reach, newest_complete};
use std::test::Fail;

/// A state holds for the cuts up to its cycle that no earlier one holds for; a state between two cuts
/// is not kept.
#[test]
fn states_are_kept_by_cuts(rt: HostRuntime) -> Result<(), Fail> {
    let mut keeper = Keeper::new(rt.alloc(), 3, 10);
    assert_eq!(rt; keeper.hart(), 3);
    assert_eq!(rt; keeper.state_at(0), None);
    keeper.cross(5, 'a')?;
    keeper.cross(9, 'b')?;
    keeper.cross(30, 'c')?;
    keeper.cross(34, 'd')?;
    keeper.cross(47, 'e')?;
    for (cut, state) in [
        (0, Some('a')),
        (5, None),
        (10, Some('c')),
        (20, Some('c')),
        (30, Some('c')),
        (40, Some('e')),
        (50, None),
    ] {
        assert_eq!(rt; keeper.state_at(cut).copied(), state, "cut {cut}");
    }
    keeper.forget_below(20);
    assert_eq!(rt; keeper.state_at(0), None);
    assert_eq!(rt; keeper.state_at(20), Some(&'c'));
    keeper.forget_below(40);
    assert_eq!(rt; keeper.state_at(30), None);
    assert_eq!(rt; keeper.state_at(40), Some(&'e'));
    Ok(())
}

#[test]
fn the_newest_cut_is_that_of_the_least_cycle(rt: HostRuntime) {
    for (reached, older, newer) in [
        ([Reach::Stamp(34), Reach::Ended, Reach::Stamp(47)], 20, 30),
        ([Reach::Ended, Reach::Stamp(19), Reach::Ended], 0, 10),
        ([Reach::Stamp(9), Reach::Stamp(40), Reach::Ended], 0, 0),
    ] {
        let cuts = newest_complete(&reached, 10);
        assert_eq!(rt; cuts, Cuts { older, newer }, "newer {newer}");
    }
}

#[test]
fn a_cycle_reaches_a_cut_once(rt: HostRuntime) {
    let mut crossing = Crossing::new();
    assert!(rt; crossing.reaches_new(10, 3));
    crossing.cross(3);
    assert!(rt; !crossing.reaches_new(10, 9));
    assert!(rt; crossing.reaches_new(10, 10));
}
