ghost use Rattle.std.specs.Prelude.{◌≡◌};
ghost use Rattle.dt_csr.specs.Modes.{IsMode};
ghost use Rattle.dt_step.specs.State.{IsArch};
ghost use Rattle.dt_walk.specs.Walk.{CanWalk};
ghost use Rattle.dt_access.specs.Translating.{atomic_access, data_mode, effective_mode, is_translated, levels_of, walk_args};

use dt_csr::{MACHINE, mstatus, satp};
use dt_step::{Arch, AtomicOp};
use dt_walk::{Access, WalkArgs};

/// The bytes of a page and of a page table.
const PAGE_SIZE: u64 = 4096;

/// The mode whose rules loads and stores follow.
fn data_mode(a: &Arch) -> u8
    requires { IsArch a.now }
    ensures value { result ≡ data_mode a.now }
    ensures mode { IsMode result }
{
    let status = a.csrs.mstatus;
    if a.mode == MACHINE && mstatus::MPRV.get(status) == 1 {
        mstatus::MPP.get(status) as u8
    } else {
        a.mode
    }
}

fn effective_mode(a: &Arch, access: Access) -> u8
    requires { IsArch a.now }
    ensures value { result ≡ effective_mode a.now access }
    ensures mode { IsMode result }
{
    match access {
        Access::Fetch => a.mode,
        Access::Load | Access::Store => data_mode(a),
    }
}

/// Whether addresses are translated where this is the effective mode.
fn is_translated(a: &Arch, mode: u8) -> bool
    ensures { result ≡ is_translated a.now mode }
{
    let translation = satp::MODE.get(a.csrs.satp);
    mode < MACHINE && (translation == satp::SV39 || translation == satp::SV48)
}

fn levels_of(a: &Arch) -> u8
    ensures { result ≡ levels_of a.now }
{
    if satp::MODE.get(a.csrs.satp) == satp::SV48 {
        4
    } else {
        3
    }
}

/// What the address of an atomic is translated for: LR is a load; SC and the atomic memory operations
/// are stores.
pub fn atomic_access(op: AtomicOp) -> Access
    ensures { result ≡ atomic_access op }
{
    match op {
        AtomicOp::Lr => Access::Load,
        AtomicOp::Sc | AtomicOp::Amo(_) => Access::Store,
    }
}

/// How a virtual address is translated for an access in this state.
pub fn walk_args(a: &Arch, access: Access, va: u64) -> WalkArgs
    requires { IsArch a.now }
    ensures value { result ≡ walk_args a.now access va }
    ensures can_walk { CanWalk result }
{
    let mode = effective_mode(a, access);
    let status = a.csrs.mstatus;
    WalkArgs {
        va,
        root: satp::PPN.get(a.csrs.satp) * PAGE_SIZE,
        on: is_translated(a, mode),
        levels: levels_of(a),
        access,
        mode,
        sum: mstatus::SUM.get(status) == 1,
        mxr: mstatus::MXR.get(status) == 1,
    }
}
