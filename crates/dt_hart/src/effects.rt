ghost use Rattle.std.specs.Prelude.{◌≡◌, ◌<◌, ◌+◌, ◌↔◌, IsTrue, OnOk, OnErr};
ghost use Rattle.dt_record.specs.declared.limits.TheConstants.{RECORD_LIMIT};
ghost use Rattle.dt_record.specs.Keys.{key_of};
ghost use Rattle.dt_record.specs.Lawful.{IsLawful};
ghost use Rattle.dt_reference.specs.HartActions.{action_of};
ghost use Rattle.dt_step.specs.State.{IsArch};
ghost use Rattle.dt_hart.specs.Counting.{IsCounted, key_after};
ghost use Rattle.dt_hart.specs.Fences.{is_ordering, ordering_in};
ghost use Rattle.dt_hart.specs.Following.{Follows, FollowsFences, KeepsAccesses};
ghost use Rattle.dt_hart.specs.Marks.{KeepsAccessMarks};
ghost use Rattle.dt_hart.specs.Taking.{is_placed};
ghost use Rattle.dt_windows.specs.Marks.{KeepsMarks as KeepsWindowsMarks};

use crate::accesses::Accesses;
use dt_decode::Instr;
use dt_record::{Body, Key, Record, Sources};
use dt_reference::meaning;
use dt_step::{Arch, Planned, plan};
use dt_stores::drains_stay_below;
use dt_windows::Windows;
use std::alloc::AllocError;

/// Takes what a hart's record with this number does to its accesses and its fences, in the state
/// before it.
pub fn take_effects(
    accesses: &mut Accesses,
    windows: &mut Windows,
    a: &Arch,
    seq: u32,
    event: &Record,
    sources: Sources,
) -> Result<(), AllocError>
    requires arch { IsArch a.now }
    requires lawful { IsLawful event.now }
    requires placed { IsTrue (is_placed (action_of seq event.now)) }
    requires counted { IsCounted accesses.old.stores (key_of seq event.now) }
    requires room { seq < RECORD_LIMIT }
    ensures follows { OnOk result (Follows accesses.old accesses.new (key_of seq event.now) event.now.body sources) }
    ensures fences { OnOk result (FollowsFences windows.old windows.new a.now seq event.now) }
    ensures counted { OnOk result (IsCounted accesses.new.stores (key_after (key_of seq event.now))) }
    ensures marks { OnOk result (KeepsAccessMarks accesses.old accesses.new) }
    ensures windows_marks { OnOk result (KeepsWindowsMarks windows.old windows.new) }
    ensures unchanged { OnErr result (KeepsAccesses accesses.old accesses.new) }
    ensures windows_unchanged { OnErr result (windows.new ≡ windows.old) }
{
    drains_stay_below();
    match ordering_plan(a, event) {
        None => accesses.take(seq, event, sources),
        Some(fence) => match fence {
            Planned::Fences { ww, wr, rr } => {
                accesses.take_fence(ww, wr, rr);
                Ok(())
            }
            _ => {
                let key = Key {
                    stamp: event.stamp,
                    hart: event.hart,
                    seq,
                };
                windows.take(fence, key)
            }
        },
    }
}

/// The plan of the fence that the record retires, if it retires one.
pub fn ordering_plan(a: &Arch, event: &Record) -> Option<Planned>
    requires arch { IsArch a.now }
    requires lawful { IsLawful event.now }
    ensures { result ≡ ordering_in a.now event.now.body }
{
    match event.body {
        Body::Commit { retire } => match meaning(retire.bits) {
            Some(i) if is_ordering(i) => Some(plan(a, i, retire.bits)),
            _ => None,
        },
        _ => None,
    }
}

fn is_ordering(i: Instr) -> bool
    ensures { result ≡ is_ordering i }
{
    matches!(
        &i,
        Instr::Fence { .. } | Instr::FenceI | Instr::SfenceVma { .. }
    )
}
