ghost use Rattle.std.specs.Prelude.{◌≡◌, [], slice_get, drop, IsTrue, OnOk, OnErr};
ghost use Rattle.dt_versions.specs.History.{are_in_order};
ghost use Rattle.dt_settled.specs.Waiting.{waiting_with};

use dt_record::{Key, Write};
use std::alloc::{AllocError, Global};
use std::collections::BTreeMap;
use std::marker::Model;

/// Writes that wait. A contract sees them as a list in the order of their keys.
#[derive(Drop)]
pub struct Waiting {
    writes: BTreeMap<Key, Write>,
}

impl Model for Waiting {
    ghost use Rattle.std.specs.Prelude.{List};
    ghost use Rattle.std.specs.Map.{values_of};
    ghost use Rattle.dt_record.specs.declared.writes.Write.{Write};
    ghost use Rattle.dt_settled.specs.Waiting.{AreKeyed};

    ghost Value = { List Write };

    ghost view = { λ w. values_of w.writes.entries };

    ghost invariant = { λ w. AreKeyed w.writes.entries };
}

impl Waiting {
    pub fn new(alloc: Global) -> Waiting
        ensures { result ≡ [] }
    {
        Waiting {
            writes: BTreeMap::new(alloc),
        }
    }

    /// Puts a write to its place by key. Of two writes with one key, the first stays.
    pub fn insert(&mut self, w: Write) -> Result<(), AllocError>
        ensures held { OnOk result (self.new ≡ waiting_with (Some w) self.old) }
        ensures unchanged { OnErr result (self.new ≡ self.old) }
        ensures in_order { IsTrue (are_in_order self.new) }
    {
        if !self.writes.contains_key(&w.key) {
            self.writes.insert(w.key, w)?;
        }
        Ok(())
    }

    /// The write with the least key.
    pub fn first(&self) -> Option<Write>
        ensures { result ≡ slice_get self.now 0 }
    {
        match self.writes.first_key_value() {
            Some((_, w)) => Some(*w),
            None => None,
        }
    }

    /// Drops the write with the least key.
    pub fn drop_first(&mut self)
        ensures { self.new ≡ drop 1 self.old }
    {
        let _ = self.writes.pop_first();
    }
}
