ghost use Rattle.std.specs.Prelude.{◌≡◌, ℕ, ◌+◌, [], Some, None, true, false, length, map, IsTrue, IfOk, OnOk, OnErr};
ghost use Rattle.dt_record.specs.Lawful.{is_ram_line};
ghost use Rattle.dt_local.specs.LocalMemory.{local_memory, reserved_at, newest_of, noted_key, greater, pair_of, AreKnownBytes};
ghost use Rattle.dt_local.specs.Marks.{IsLive, KeepsMarks, undone, forgotten};

use crate::pairs::known_of;
use crate::slots::{Slot, key_of_byte};
use crate::steps::{Steps, no_steps, reserve_steps};
use crate::words::{forget_steps, make_room, raise_all, undo_steps};
use dt_record::{Key, Known};
use std::alloc::{AllocError, Global};
use std::collections::BTreeMap;
use std::marker::Model;

/// What a hart has read and written so far: for each byte, the greatest key that was noted.
///
/// Each word has a slot from its first reservation on, so that a note takes no memory, and nor
/// does its undoing.
#[derive(Debug, Drop)]
pub struct Local {
    slots: BTreeMap<u64, Slot>,
    steps: Steps,
    reserved: Option<Reservation>,
}

/// The bytes of a line for which there is room.
#[derive(Clone, Copy, Debug)]
struct Reservation {
    line: u64,
    mask: u64,
}

/// A place in the past of a local memory: how many steps came before it.
#[derive(Clone, Copy, Debug, PartialEq, Eq)]
pub struct Mark {
    at: u64,
}

impl Model for Local {
    ghost use Rattle.std.specs.Prelude.{option_map};
    ghost use Rattle.dt_local.specs.LocalMemory.{LocalMemory, reserved_at};
    ghost use Rattle.dt_local.specs.Slots.{memory_of, IsSound};

    ghost Value = { LocalMemory };

    ghost view = { λ l. memory_of l.slots.entries l.steps (option_map (λ r. reserved_at r.line r.mask) l.reserved) };

    ghost invariant = { λ l. IsSound l.slots l.steps (option_map (λ r. reserved_at r.line r.mask) l.reserved) };
}

impl Local {
    /// A hart that has read and written nothing yet. It takes no memory.
    pub fn new(alloc: Global) -> Local
        ensures { result ≡ local_memory [] None }
    {
        Local {
            slots: BTreeMap::new(alloc),
            steps: no_steps(alloc),
            reserved: None,
        }
    }

    /// The greatest key that was noted for the byte.
    pub fn newest(&self, addr: u64) -> Option<Key>
        ensures { result ≡ newest_of self.now addr }
    {
        match self.slots.get(&(addr / 8)) {
            Some(slot) => key_of_byte(slot, (addr % 8) as usize),
            None => None,
        }
    }

    /// The bytes that have a key, by address, each with the greatest that was noted for it.
    pub fn pairs(&self, alloc: Global) -> Result<Known, AllocError>
        ensures value { IfOk result (λ known. map pair_of known ≡ self.now.keys) }
        ensures in_order { AreKnownBytes self.now.keys }
    {
        known_of(alloc, &self.slots)
    }

    /// Makes room so that the next `note`, of these bytes of a line, takes no memory.
    pub fn reserve(&mut self, line: u64, mask: u64) -> Result<(), AllocError>
        requires { IsTrue (is_ram_line line) }
        ensures reserved { OnOk result (self.new ≡ record self.old { reserved = Some (reserved_at line mask) }) }
        ensures unchanged { OnErr result (self.new ≡ self.old) }
    {
        make_room(&mut self.slots, line, mask)?;
        reserve_steps(&mut self.steps)?;
        self.reserved = Some(Reservation { line, mask });
        Ok(())
    }

    /// Notes a key for each byte of the mask, where it is above the one that is noted.
    pub fn note(&mut self, line: u64, mask: u64, keys: &[Key; 64])
        requires { self.old.reserved ≡ Some (reserved_at line mask) }
        ensures noted { (addr : ℕ) → newest_of self.new addr ≡ greater (newest_of self.old addr) (noted_key line mask keys.now addr) }
        ensures used { self.new.reserved ≡ None }
        ensures marks { KeepsMarks self.old self.new }
    {
        raise_all(&mut self.slots, &mut self.steps, line, mask, keys);
        self.reserved = None;
    }

    /// The place at which the memory stands, to which it can be undone from now on.
    pub fn mark(&mut self) -> Mark
        ensures here { result ≡ record { at = self.old.from + length self.old.past } }
        ensures kept { self.new ≡ record self.old { keeps = true } }
        ensures live { IsLive self.new result }
    {
        self.steps.keeps = true;
        Mark {
            at: self.steps.from + self.steps.kept.len() as u64,
        }
    }

    /// Makes the memory what it was at a mark. That mark, and each earlier one, can be undone to
    /// again.
    pub fn undo_to(&mut self, m: Mark)
        requires { IsLive self.old m }
        ensures { self.new ≡ undone self.old m }
    {
        let count = (m.at - self.steps.from) as usize;
        undo_steps(&mut self.slots, &mut self.steps.kept, count);
        self.reserved = None;
    }

    /// Forgets what came before a mark, so that no earlier one can be undone to.
    pub fn forget(&mut self, m: Mark)
        requires { IsLive self.old m }
        ensures { self.new ≡ forgotten self.old m }
    {
        let count = (m.at - self.steps.from) as usize;
        forget_steps(&mut self.steps.kept, count);
        self.steps.from = m.at;
    }

    /// A memory of the same bytes, without a past.
    pub fn copy(&self, alloc: Global) -> Result<Local, AllocError>
        ensures { IfOk result (λ l. l ≡ record self.now { keeps = false; from = 0; past = [] }) }
    {
        let slots = self.slots.clone()?;
        let mut steps = no_steps(alloc);
        reserve_steps(&mut steps)?;
        Ok(Local {
            slots,
            steps,
            reserved: self.reserved,
        })
    }
}
