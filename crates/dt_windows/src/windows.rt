ghost use Rattle.std.specs.Prelude.{◌≡◌, ◌+◌, ℕ, Option, None, Some, [], true, false, length, OnOk, IfOk, OnErr};
ghost use Rattle.dt_step.specs.declared.plans.Planned.TheVariants.{FenceI, FencesPages};
ghost use Rattle.dt_windows.specs.Fences.{is_fence};
ghost use Rattle.dt_windows.specs.Kept.{windows_view, page_key, later_of, ArePages, FencesStand, TakesFence};
ghost use Rattle.dt_windows.specs.Marks.{IsLive, KeepsMarks, undone, forgotten};

use crate::pages::{add_slot, pages_of, set_key, slots_of, undo_steps};
use crate::steps::{Steps, forget_steps, no_steps, reserve_step};
use dt_record::Key;
use dt_step::Planned;
use std::alloc::{AllocError, Global};
use std::collections::BTreeMap;
use std::marker::Model;

/// The bytes of a page.
const PAGE_LEN: u64 = 4096;

/// The keys of a hart's last fences. The least moment that the hart could see at one of them is the
/// first from which it may translate or fetch what that fence covers.
#[derive(Debug, Drop)]
pub struct Windows {
    instructions: Option<Key>,
    all: Option<Key>,
    /// By the numbers of the pages that were fenced alone.
    fenced: BTreeMap<u64, Option<Key>>,
    steps: Steps,
}

/// A place in the past of what is kept of a hart's fences, with the last of those that cover no
/// single page.
#[derive(Clone, Copy, Debug, PartialEq, Eq)]
pub struct Mark {
    at: u64,
    instructions: Option<Key>,
    all: Option<Key>,
}

impl Model for Windows {
    ghost use Rattle.dt_windows.specs.Kept.{WindowsView};
    ghost use Rattle.dt_windows.specs.Pages.{windows_of, IsSound};

    ghost Value = { WindowsView };

    ghost view = { λ w. windows_of w.instructions w.all w.fenced.entries w.steps };

    ghost invariant = { λ w. IsSound w.fenced w.steps };
}

impl Windows {
    /// Of a hart without a fence.
    pub fn new(alloc: Global) -> Windows
        ensures value { result ≡ windows_view None None [] }
        ensures stands { FencesStand result [] }
    {
        Windows {
            instructions: None,
            all: None,
            fenced: BTreeMap::new(alloc),
            steps: no_steps(alloc),
        }
    }

    /// Of a hart whose last fences have these keys, and no past.
    pub fn of(
        alloc: Global,
        instructions: Option<Key>,
        all: Option<Key>,
        pages: &[(u64, Key)],
    ) -> Result<Windows, AllocError>
        requires { ArePages pages.now }
        ensures { IfOk result (λ w. w ≡ windows_view instructions all pages.now) }
    {
        Ok(Windows {
            instructions,
            all,
            fenced: slots_of(alloc, pages)?,
            steps: no_steps(alloc),
        })
    }

    /// Takes the hart's next commit, with this plan and this key.
    pub fn take(&mut self, plan: Planned, key: Key) -> Result<(), AllocError>
        ensures taken { OnOk result (TakesFence self.old self.new plan key) }
        ensures marks { OnOk result (KeepsMarks self.old self.new) }
        ensures unchanged { OnErr result (self.new ≡ self.old) }
        ensures others { is_fence plan ≡ false → self.new ≡ self.old }
    {
        match plan {
            Planned::FenceI => self.take_instructions(key),
            Planned::FencesPages { va, all } => self.take_pages(va, all, key)?,
            _ => {}
        }
        Ok(())
    }

    fn take_instructions(&mut self, key: Key)
        ensures { self.new ≡ record self.old { instructions = Some key } }
    {
        self.instructions = Some(key);
    }

    fn take_pages(&mut self, va: Option<u64>, all: bool, key: Key) -> Result<(), AllocError>
        ensures taken { OnOk result (TakesFence self.old self.new (FencesPages va all) key) }
        ensures marks { OnOk result (KeepsMarks self.old self.new) }
        ensures unchanged { OnErr result (self.new ≡ self.old) }
    {
        if all {
            self.take_all_pages(key);
        } else if let Some(va) = va {
            self.take_page(va, key)?;
        }
        Ok(())
    }

    /// Covers what was fenced before, too, since its key is the greatest.
    fn take_all_pages(&mut self, key: Key)
        ensures { self.new ≡ record self.old { all = Some key } }
    {
        self.all = Some(key);
    }

    fn take_page(&mut self, va: u64, key: Key) -> Result<(), AllocError>
        ensures taken { OnOk result (TakesFence self.old self.new (FencesPages (Some va) false) key) }
        ensures marks { OnOk result (KeepsMarks self.old self.new) }
        ensures unchanged { OnErr result (self.new ≡ self.old) }
    {
        let page = va / PAGE_LEN;
        add_slot(&mut self.fenced, page)?;
        reserve_step(&mut self.steps)?;
        set_key(&mut self.fenced, &mut self.steps, page, key);
        Ok(())
    }

    /// The key of the last fence of instructions.
    pub fn instructions(&self) -> Option<Key>
        ensures { result ≡ self.now.instructions }
    {
        self.instructions
    }

    /// The key of the last fence of all pages.
    pub fn all(&self) -> Option<Key>
        ensures { result ≡ self.now.all }
    {
        self.all
    }

    /// The key of the last fence that covers the page of an address.
    pub fn page(&self, va: u64) -> Option<Key>
        ensures { result ≡ page_key self.now va }
    {
        later_of(
            self.all,
            self.fenced.get(&(va / PAGE_LEN)).copied().flatten(),
        )
    }

    /// The pages that were fenced alone, by rising numbers, each with the key of the last such fence.
    pub fn pages(&self, alloc: Global) -> Result<Vec<(u64, Key)>, AllocError>
        ensures value { IfOk result (λ pages. pages.items ≡ self.now.pages) }
        ensures in_order { ArePages self.now.pages }
    {
        pages_of(alloc, &self.fenced)
    }

    /// The place at which this stands, to which it can be undone from now on.
    pub fn mark(&mut self) -> Mark
        ensures here { let at = self.old.from + length self.old.past in
            result ≡ record { at = at; instructions = self.old.instructions; all = self.old.all } }
        ensures kept { self.new ≡ record self.old { keeps = true } }
        ensures live { IsLive self.new result }
    {
        self.steps.keeps = true;
        Mark {
            at: self.steps.from + self.steps.kept.len() as u64,
            instructions: self.instructions,
            all: self.all,
        }
    }

    /// Makes this what it was at a mark. That mark, and each earlier one, can be undone to again.
    pub fn undo_to(&mut self, m: Mark)
        requires { IsLive self.old m }
        ensures { self.new ≡ undone self.old m }
    {
        let count = (m.at - self.steps.from) as usize;
        undo_steps(&mut self.fenced, &mut self.steps.kept, count);
        self.instructions = m.instructions;
        self.all = m.all;
    }

    /// Forgets what came before a mark, so that no earlier one can be undone to.
    pub fn forget(&mut self, m: Mark)
        requires { IsLive self.old m }
        ensures { self.new ≡ forgotten self.old m }
    {
        let count = (m.at - self.steps.from) as usize;
        forget_steps(&mut self.steps.kept, count);
        self.steps.from = m.at;
    }

    /// The same fences, without a past.
    pub fn copy(&self, alloc: Global) -> Result<Windows, AllocError>
        ensures { IfOk result (λ w. w ≡ record self.now { keeps = false; from = 0; past = [] }) }
    {
        Ok(Windows {
            instructions: self.instructions,
            all: self.all,
            fenced: self.fenced.clone()?,
            steps: no_steps(alloc),
        })
    }
}

/// The greater of two keys, where both are there.
fn later_of(a: Option<Key>, b: Option<Key>) -> Option<Key>
    ensures { result ≡ later_of a b }
{
    match (a, b) {
        (Some(first), Some(second)) if second > first => b,
        (Some(_), _) => a,
        (None, _) => b,
    }
}
