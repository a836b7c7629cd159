ghost use Rattle.std.specs.Prelude.{◌≡◌, ◌≤◌, [], ◌∷◌, ℕ, Option, length, map, slice_index, IsTrue, IfOk};
ghost use Rattle.std.specs.List.{list_all};
ghost use Rattle.dt_csr.specs.Kept.{AreKeptInBounds, KeepsBounds, values_of};
ghost use Rattle.dt_record.specs.declared.limits.TheConstants.{RECORD_LIMIT};
ghost use Rattle.dt_record.specs.Lawful.{is_lawful};
ghost use Rattle.dt_step.specs.State.{IsArch, IsReachable};
ghost use Rattle.dt_hart.specs.Fronts.{IsLegal, IsOver};
ghost use Rattle.dt_hart.specs.HartData.{HasArch, HasData, IsWithin, AreListed, kept_values, page_pair};
ghost use Rattle.dt_windows.specs.Kept.{windows_view};
ghost use Rattle.dt_hart.specs.Replaying.{numbered_key};
ghost use Rattle.dt_hart.specs.OwnWrites.{are_of, are_rising};
ghost use Rattle.dt_hart.specs.Settings.{Setting, last_stamp};
ghost use Rattle.dt_hart.specs.Standing.{HartStands};

use crate::accesses::Accesses;
use crate::harts::Hart;
use crate::known::local_of;
use crate::pages::{marks_of, number_within, numbered_key, own_fences};
use crate::replays::replay;
use dt_csr::Csrs;
use dt_record::{HartState, Key, Record};
use dt_step::Arch;
use dt_windows::Windows;
use std::alloc::{AllocError, Global};

impl Hart {
    /// What a snapshot file says of the hart.
    pub fn state(&self, alloc: Global) -> Result<HartState, AllocError>
        ensures data { IfOk result (λ d. (s : Setting) → HartStands self.now s → HasData s d) }
        ensures within { IfOk result (λ d. self.now.seq ≤ RECORD_LIMIT → IsWithin self.now.arch.csrs.wide d) }
    {
        let all = self.windows.all();
        let fenced = self.windows.pages(alloc)?;
        let csrs = self.arch.csrs;
        Ok(HartState {
            seq: self.seq,
            pc: self.arch.pc,
            x: named_registers(&self.arch.x),
            mode: self.arch.mode,
            v: csrs.values(),
            floors: [csrs.cycle_floor, csrs.instret_floor, csrs.time_floor],
            order: self.accesses.floor,
            all_pages: number_within(self.seq, all),
            pages: marks_of(alloc, self.seq, all, &fenced)?,
            known: self.accesses.local.pairs(alloc)?,
        })
    }

    /// The hart with this number after its first records, of which a snapshot file says the rest. Where
    /// these were not allowed, or the data are not theirs, it is some hart.
    pub fn of_state(
        alloc: Global,
        number: u8,
        wide: bool,
        s: &HartState,
        before: &[Record],
    ) -> Result<Hart, AllocError>
        requires within { IsWithin wide s.now }
        requires lawful { IsTrue (list_all is_lawful before.now) }
        requires its { IsTrue (are_of number before.now) }
        requires rising { IsTrue (are_rising before.now) }
        requires counted { s.now.seq ≡ length before.now }
        ensures stands { IfOk result (λ h. (t : Setting) → IsOver number wide before.now t → IsLegal t → HasData t s.now → HartStands h t) }
        ensures number { IfOk result (λ h. h.arch.hart ≡ number) }
        ensures seq { IfOk result (λ h. h.seq ≡ length before.now) }
        ensures stamp { IfOk result (λ h. h.stamp ≡ last_stamp before.now) }
    {
        let arch = arch_from(number, wide, s);
        let replayed = replay(alloc, &arch, before)?;
        let windows = windows_from(alloc, replayed.instructions, s, before)?;
        let local = local_of(alloc, s.known.items())?;
        let mut accesses = replayed.accesses;
        accesses.local = local;
        accesses.floor = s.order;
        Ok(Hart {
            arch,
            seq: replayed.seq,
            stamp: replayed.stamp,
            accesses,
            reserved: replayed.reserved,
            windows,
        })
    }
}

/// The registers x1 to x31.
fn named_registers(x: &[u64; 32]) -> [u64; 31]
    ensures { (first : ℕ) → slice_index x.now 0 ≡ first → first ∷ result ≡ x.now }
{
    let mut named = [0; 31];
    named.copy_from_slice(&x[1..]);
    named
}

/// The registers x0 to x31.
fn all_registers(x: &[u64; 31]) -> [u64; 32]
    ensures { result ≡ 0 ∷ x.now }
{
    let mut all = [0; 32];
    all[1..].copy_from_slice(x);
    all
}

/// The registers of control and status with these values and these floors of cycle, instret and time.
fn csrs_from(v: [u64; 17], floors: &[u64; 3], wide: bool) -> Csrs
    requires { KeepsBounds v wide }
    ensures values { values_of result ≡ v }
    ensures floors { floors.now ≡ result.cycle_floor ∷ result.instret_floor ∷ result.time_floor ∷ [] }
    ensures wide { result.wide ≡ wide }
    ensures keeps { AreKeptInBounds result }
{
    Csrs::of_values(v, floors[0], floors[1], floors[2], wide)
}

/// The reference's state that the data say.
fn arch_from(number: u8, wide: bool, s: &HartState) -> Arch
    requires { IsWithin wide s.now }
    ensures data { HasArch result s.now }
    ensures arch { IsArch result }
    ensures reachable { IsReachable result }
    ensures hart { result.hart ≡ number }
    ensures wide { result.csrs.wide ≡ wide }
{
    Arch {
        pc: s.pc,
        x: all_registers(&s.x),
        csrs: csrs_from(s.v, &s.floors, wide),
        mode: s.mode,
        hart: number,
    }
}

/// The last fences, of which the data say the numbers of those of pages.
fn windows_from(
    alloc: Global,
    instructions: Option<Key>,
    s: &HartState,
    before: &[Record],
) -> Result<Windows, AllocError>
    requires { AreListed s.now }
    ensures { let pages = kept_values (numbered_key before.now) (map page_pair s.now.pages) in
        IfOk result (λ w. w ≡ windows_view instructions (numbered_key before.now s.now.all_pages) pages) }
{
    let pages = own_fences(alloc, before, s.pages.items())?;
    let all = numbered_key(before, s.all_pages);
    Windows::of(alloc, instructions, all, &pages)
}
