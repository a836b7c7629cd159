ghost use Rattle.std.specs.Prelude.{◌≡◌, IfOk};
ghost use Rattle.dt_hart.specs.Marks.{IsLive, IsSound, MarksGoOn, forgotten, marked, stood_at, without_past};
ghost use Rattle.dt_hart.specs.Settings.{Setting};
ghost use Rattle.dt_hart.specs.Standing.{HartStands};

use crate::accesses::Accesses;
use crate::harts::Hart;
use dt_record::Key;
use dt_step::Arch;
use std::alloc::{AllocError, Global};

/// A place in the past of a hart, with what changes without a step.
#[derive(Clone, Copy, Debug, PartialEq, Eq)]
pub struct HartMark {
    arch: Arch,
    seq: u32,
    stamp: u64,
    floor: u64,
    last_read: u64,
    reserved: Option<(u64, Key)>,
    stores: dt_stores::Mark,
    local: dt_local::Mark,
    windows: dt_windows::Mark,
}

impl Hart {
    /// The place at which the hart stands, to which it can be undone from now on.
    pub fn mark(&mut self) -> HartMark
        ensures live { IsLive self.new result }
        ensures here { stood_at self.new result ≡ self.new }
        ensures kept { self.new ≡ marked self.old }
        ensures stands { (s : Setting) → HartStands self.old s → HartStands self.new s }
        ensures sound { IsSound self.new }
    {
        HartMark {
            arch: self.arch,
            seq: self.seq,
            stamp: self.stamp,
            floor: self.accesses.floor,
            last_read: self.accesses.last_read,
            reserved: self.reserved,
            stores: self.accesses.stores.mark(),
            local: self.accesses.local.mark(),
            windows: self.windows.mark(),
        }
    }

    /// Makes the hart what it was at a mark. That mark, and each earlier one, can be undone to again.
    pub fn undo_to(&mut self, m: HartMark)
        requires live { IsLive self.old m }
        requires sound { IsSound (stood_at self.old m) }
        ensures { self.new ≡ stood_at self.old m }
    {
        self.arch = m.arch;
        self.seq = m.seq;
        self.stamp = m.stamp;
        self.reserved = m.reserved;
        self.accesses.floor = m.floor;
        self.accesses.last_read = m.last_read;
        self.accesses.stores.undo_to(m.stores);
        self.accesses.local.undo_to(m.local);
        self.windows.undo_to(m.windows);
    }

    /// Forgets what came before a mark, so that no earlier one can be undone to.
    pub fn forget(&mut self, m: HartMark)
        requires { IsLive self.old m }
        ensures value { self.new ≡ forgotten self.old m }
        ensures stands { (s : Setting) → HartStands self.old s → HartStands self.new s }
    {
        self.accesses.stores.forget(m.stores);
        self.accesses.local.forget(m.local);
        self.windows.forget(m.windows);
    }

    /// A hart that stands for the same, without a past.
    pub fn copy(&self, alloc: Global) -> Result<Hart, AllocError>
        ensures value { IfOk result (λ h. h ≡ without_past self.now) }
        ensures stands { IfOk result (λ h. (s : Setting) → HartStands self.now s → HartStands h s) }
    {
        let stores = self.accesses.stores.copy(alloc)?;
        let local = self.accesses.local.copy(alloc)?;
        let windows = self.windows.copy(alloc)?;
        Ok(Hart {
            arch: self.arch,
            seq: self.seq,
            stamp: self.stamp,
            accesses: Accesses {
                stores,
                local,
                floor: self.accesses.floor,
                last_read: self.accesses.last_read,
            },
            reserved: self.reserved,
            windows,
        })
    }
}

/// A law: marks stay live and go on standing for the same, and harts that are alike stand for the
/// same.
pub fn marks_go_on()
    ensures { MarksGoOn }
{
    dt_stores::marks_stay_live();
    dt_local::marks_stay_live();
    dt_windows::marks_stay_live();
}
