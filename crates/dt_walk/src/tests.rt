ghost use Rattle.std.specs.Prelude.{◌≡◌, ◌==◌, find};
ghost use Rattle.dt_walk.specs.Leaf.{CanFind};
ghost use Rattle.dt_walk.specs.Walk.{CanWalk};

use crate::arguments::{Access, WalkAnswer, WalkArgs};
use crate::leaves::{LeafAnswer, Tables, find_leaf};
use crate::walks::{PteReader, walk};
use WalkAnswer::{AccessFault, Page, PageFault};

/// Entries by address; all others are 0.
#[derive(Drop)]
struct Entries([(u64, u64); 4]);

fn entry_at(entries: &[(u64, u64)], addr: u64) -> Option<(u64, u64)>
    ensures { result ≡ find (λ e. e.0 == addr) entries.now }
{
    entries.iter().copied().find(|entry| entry.0 == addr)
}

impl PteReader for Entries {
    ghost use Rattle.std.specs.Option.{option_map_or};

    ghost entry = { λ entries addr. option_map_or (λ e. e.1) (find (λ e. e.0 == addr) entries.0) 0 };

    fn pte(&self, addr: u64) -> u64 {
        entry_at(&self.0, addr).map_or(0, |entry| entry.1)
    }
}

/// No entry: an address that no test reads.
const NONE: (u64, u64) = (0, 0);

/// A walk by S from the table at 80002000, with neither SUM nor MXR.
fn args(va: u64, wide: bool, access: Access) -> WalkArgs
    ensures { CanWalk result }
{
    WalkArgs {
        va,
        root: 0x8000_2000,
        on: true,
        levels: if wide { 4 } else { 3 },
        access,
        mode: 1,
        sum: false,
        mxr: false,
    }
}

/// The tables that these walks go through.
fn tables(wide: bool) -> Tables
    ensures { CanFind result }
{
    Tables {
        root: 0x8000_2000,
        levels: if wide { 4 } else { 3 },
    }
}

/// The leaf, whose place shows its level, and the address in its page. Indexes and offset are split
/// by hand: 84, 11a, 56 and 789 for three levels; 24, d1, b3, 189 and abc for four.
#[test]
fn pages_of_each_size(rt: HostRuntime) {
    let narrow = 0x21_2345_6789;
    let wide = 0x1234_5678_9abc;
    let rows = [
        (false, (0x8000_42b0, 0x2000_14cf), narrow, 0x8000_5789),
        (false, (0x8000_38d0, 0x2008_00cf), narrow, 0x8025_6789),
        (false, (0x8000_2420, 0x2000_00cf), narrow, 0xa345_6789),
        (
            false,
            (0x8000_2ff0, 0x2000_00cf),
            0xffff_ffff_8000_1234,
            0x8000_1234,
        ),
        (true, (0x8000_5c48, 0x2000_18cf), wide, 0x8000_6abc),
        (true, (0x8000_4598, 0x2008_00cf), wide, 0x8038_9abc),
        (true, (0x8000_3688, 0x2000_00cf), wide, 0x9678_9abc),
        (true, (0x8000_2120, 0x20_0000_00cf), wide, 0xb4_5678_9abc),
        (true, (0x8000_2000, 0xcf), 0x8000_3000, 0x8000_3000),
    ];
    for (is_wide, leaf, va, address) in rows {
        let entries = if is_wide {
            Entries([
                leaf,
                (0x8000_2120, 0x2000_0c01),
                (0x8000_3688, 0x2000_1001),
                (0x8000_4598, 0x2000_1401),
            ])
        } else {
            Entries([
                leaf,
                (0x8000_2420, 0x2000_0c01),
                (0x8000_38d0, 0x2000_1001),
                NONE,
            ])
        };
        let answer = walk(&entries, args(va, is_wide, Access::Load));
        assert_eq!(rt; answer, Page(address), "at {va:x}");
        let found = find_leaf(&entries, tables(is_wide), va / 4096);
        let page = LeafAnswer::Leaf {
            page: address / 4096,
            bits: 0xcf,
        };
        assert_eq!(rt; found, page, "at {va:x}");
    }
}

/// Each entry maps, or fails to map, the gigapage at 80000000, and stands at 80002010.
#[test]
fn faults_of_one_entry(rt: HostRuntime) {
    let page = Page(0x8000_1234);
    let rows = [
        (0x2000_00cf, Access::Fetch, page),
        (0x2000_00ef, Access::Load, page),
        (0x2000_03cf, Access::Store, page),
        (0x2000_00ce, Access::Load, PageFault),
        (0x2000_00cd, Access::Fetch, PageFault),
        (0x2000_00c5, Access::Store, PageFault),
        (0x0040_0000_2000_00cf, Access::Load, PageFault),
        (0x8000_0000_2000_00cf, Access::Load, PageFault),
        (0x2000_04cf, Access::Load, PageFault),
        (0x2008_00cf, Access::Load, PageFault),
        (0x2000_008f, Access::Load, PageFault),
        (0x2000_004f, Access::Load, page),
        (0x2000_004f, Access::Fetch, page),
        (0x2000_004f, Access::Store, PageFault),
        (0x2000_00c7, Access::Fetch, PageFault),
        (0x2000_00c7, Access::Load, page),
        (0x2000_00c9, Access::Load, PageFault),
        (0x2000_00cb, Access::Store, PageFault),
        (0x2000_0c41, Access::Load, PageFault),
        (0x2000_0c81, Access::Load, PageFault),
        (0x2000_0c11, Access::Load, PageFault),
        (0x2000_0c01, Access::Load, page),
        (0x2000_0c21, Access::Load, page),
        (0x2100_0001, Access::Load, AccessFault),
        (0x1fff_fc01, Access::Load, AccessFault),
        (0x2000_1001, Access::Load, PageFault),
    ];
    for (entry, access, expected) in rows {
        let below = [
            (0x8000_3000, 0x2000_00cf),
            (0x8000_4000, 0x2000_1001),
            (0x8000_4008, 0x2000_1001),
        ];
        let entries = Entries([(0x8000_2010, entry), below[0], below[1], below[2]]);
        let answer = walk(&entries, args(0x8000_1234, false, access));
        assert_eq!(rt; answer, expected, "at {entry:x}");
    }
}

/// One gigapage in U or S, with SUM and MXR: whether the mode is U, and then the two bits.
#[test]
fn rights_of_modes(rt: HostRuntime) {
    let page = Page(0x8000_1234);
    let supervisors = 0x2000_00cf;
    let users = 0x2000_00df;
    let executable = 0x2000_00c9;
    let rows = [
        (users, Access::Load, true, false, false, page),
        (users, Access::Store, true, false, false, page),
        (users, Access::Fetch, true, false, false, page),
        (supervisors, Access::Load, true, true, true, PageFault),
        (supervisors, Access::Fetch, true, false, false, PageFault),
        (users, Access::Load, false, false, false, PageFault),
        (users, Access::Load, false, true, false, page),
        (users, Access::Store, false, false, false, PageFault),
        (users, Access::Store, false, true, false, page),
        (users, Access::Fetch, false, true, false, PageFault),
        (executable, Access::Load, false, false, true, page),
        (executable, Access::Store, false, false, true, PageFault),
        (executable, Access::Fetch, false, false, false, page),
    ];
    for (entry, access, is_user, sum, mxr, expected) in rows {
        let args = WalkArgs {
            mode: if is_user { 0 } else { 1 },
            sum,
            mxr,
            ..args(0x8000_1234, false, access)
        };
        let answer = walk(&Entries([(0x8000_2010, entry), NONE, NONE, NONE]), args);
        assert_eq!(rt; answer, expected, "at {entry:x}");
    }
}

/// The first row of each kind is canonical or in RAM, and the others would find an entry if they
/// were taken for such.
#[test]
fn addresses_and_roots(rt: HostRuntime) {
    let entries = Entries([
        (0x8000_2000, 0x2000_0401),
        (0x8000_1010, 0x2000_00cf),
        (0x8000_2800, 0xcf),
        NONE,
    ]);
    let rows = [
        (true, 0x0000_0000_8000_3000, Page(0x8000_3000)),
        (true, 0x0000_8000_0000_0000, PageFault),
        (false, 0x0000_0000_0040_0000, Page(0x8000_0000)),
        (false, 0xffff_ff80_0040_0000, PageFault),
        (false, 0xffff_ffc0_0000_0000, Page(0)),
        (false, 0x0000_0040_0000_0000, PageFault),
    ];
    for (is_wide, va, expected) in rows {
        let answer = walk(&entries, args(va, is_wide, Access::Load));
        assert_eq!(rt; answer, expected, "at {va:x}");
    }
    let misaligned = Entries([(0x8000_2000, 0x4cf), NONE, NONE, NONE]);
    let load = args(0x8000_3000, true, Access::Load);
    assert_eq!(rt; walk(&misaligned, load), PageFault);
    let beyond = WalkArgs {
        root: 0x8400_0000,
        ..load
    };
    assert_eq!(rt; walk(&entries, beyond), AccessFault);
    let off = WalkArgs {
        va: 0x0000_8000_0000_0000,
        on: false,
        ..load
    };
    assert_eq!(rt; walk(&entries, off), Page(0x0000_8000_0000_0000));
}
