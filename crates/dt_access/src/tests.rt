ghost use Rattle.dt_step.specs.State.{IsArch};

use crate::{access_cause, atomic_access, fault_cause, page_cause, reached, walk_args};
use dt_csr::{USER, mstatus};
use dt_step::{Arch, AtomicOp, reset};
use dt_walk::{Access, WalkAnswer, WalkArgs};
use std::process::Abort;

/// In M, with the MPP of U and some bits of mstatus, and page tables from 80002000 on.
fn lending(rt: &impl Abort, status: u64, satp: u64) -> Arch
    ensures { IsArch result }
{
    assert!(rt; mstatus::MPP.get(status) != mstatus::RESERVED_MODE);
    let mut a = reset(0);
    a.csrs.mstatus = status;
    a.csrs.satp = satp;
    a
}

/// With MPRV, SUM and MXR, and with tables of three and of four levels.
#[test]
fn stores_of_m_are_translated_for_u(rt: HostRuntime) {
    for (status, satp, levels, sum, mxr) in [
        (0x2_0000, 0x8000_0000_0008_0002, 3, false, false),
        (0x6_0000, 0x9000_0000_0008_0002, 4, true, false),
        (0xa_0000, 0x8000_0000_0008_0002, 3, false, true),
    ] {
        let a = lending(&rt, status, satp);
        let store = WalkArgs {
            va: 0x1234,
            root: 0x8000_2000,
            on: true,
            levels,
            access: Access::Store,
            mode: USER,
            sum,
            mxr,
        };
        assert_eq!(rt; walk_args(&a, Access::Store, 0x1234), store, "{status:x}");
        let fetch = walk_args(&a, Access::Fetch, 0x1234);
        assert_eq!(rt; (fetch.on, fetch.mode), (false, 3), "{status:x}");
    }
}

/// Devices lie below RAM, and above it is nothing.
#[test]
fn addresses_that_can_be_reached(rt: HostRuntime) {
    let fault = WalkAnswer::AccessFault;
    for (ram_only, addr, is_reached) in [
        (false, 0x8000_0000, true),
        (true, 0x83ff_ffff, true),
        (false, 0x8400_0000, false),
        (false, 0x7fff_ffff, true),
        (true, 0x7fff_ffff, false),
    ] {
        let page = WalkAnswer::Page(addr);
        let outcome = if is_reached { page } else { fault };
        assert_eq!(rt; reached(ram_only, page), outcome, "{addr:x}");
    }
    let page_fault = WalkAnswer::PageFault;
    assert_eq!(rt; reached(false, page_fault), page_fault);
}

/// The causes of Volume II, table 3.6. An LR is a load, and an SC is a store.
#[test]
fn causes_of_faults(rt: HostRuntime) {
    for (access, at_access, at_page) in [
        (Access::Fetch, 1, 12),
        (atomic_access(AtomicOp::Lr), 5, 13),
        (atomic_access(AtomicOp::Sc), 7, 15),
    ] {
        assert_eq!(rt;
            (access_cause(access), page_cause(access)),
            (at_access, at_page)
        );
        let of_access = fault_cause(access, WalkAnswer::AccessFault);
        let of_page = fault_cause(access, WalkAnswer::PageFault);
        assert_eq!(rt; (of_access, of_page), (Some(at_access), Some(at_page)));
        assert_eq!(rt; fault_cause(access, WalkAnswer::Page(0)), None);
    }
}
