//! Records that are kept for long.
ghost use Rattle.std.specs.Prelude.{◌≡◌, ◌<◌, ◌≤◌, ◌++◌, ◌∷◌, [], Some, OnOk, OnErr, length, slice_get};
ghost use Rattle.dt_record.specs.Lent.{record_of};

use crate::lent::RecordAt;
use crate::records::Record;
use std::alloc::{AllocError, Global};
use std::marker::Model;

/// Records in their order. A contract sees their list, whatever they are kept as.
#[derive(Debug, Drop)]
pub struct Records {
    items: Vec<Record>,
}

impl Model for Records {
    ghost use Rattle.std.specs.Prelude.{List};
    ghost use Rattle.dt_record.specs.declared.records.Record.{Record};

    ghost Value = { List Record };

    ghost view = { λ records. records.items.items };
}

impl Records {
    /// No record yet.
    pub fn new(alloc: Global) -> Records
        ensures { result ≡ [] }
    {
        Records {
            items: Vec::new(alloc),
        }
    }

    /// How many records there are.
    pub fn len(&self) -> usize
        ensures { result ≡ length self.now }
    {
        self.items.len()
    }

    /// The record with this number, the first of which is 0.
    pub fn get(&self, number: usize) -> RecordAt<'_>
        requires { number < length self.now }
        ensures { slice_get self.now number ≡ Some (record_of result) }
    {
        self.items[number].lent()
    }

    /// Puts a record behind the others. An `Err` is want of memory.
    pub fn push(&mut self, event: &Record) -> Result<(), AllocError>
        ensures pushed { OnOk result (self.new ≡ self.old ++ event.now ∷ []) }
        ensures unchanged { OnErr result (self.new ≡ self.old) }
    {
        self.items.push(*event)?;
        Ok(())
    }
}

/// Records as they stand among others: those from one number up to another. A contract sees their
/// list by `part_of`.
#[derive(Clone, Copy, Debug)]
pub struct RecordsAt<'a> {
    kept: &'a Records,
    from: usize,
    to: usize,
    ghost order: { from ≤ to },
    ghost within: { to ≤ length kept.now },
}

impl Records {
    ghost use Rattle.dt_record.specs.RecordParts.{part, part_of};

    /// Those from one number up to another.
    pub fn part(&self, from: usize, to: usize) -> RecordsAt<'_>
        requires order { from ≤ to }
        requires within { to ≤ length self.now }
        ensures { part_of result ≡ part from to self.now }
    {
        RecordsAt {
            kept: self,
            from,
            to,
        }
    }
}

impl RecordsAt<'_> {
    ghost use Rattle.dt_record.specs.RecordParts.{part_of};

    /// How many records there are.
    pub fn len(&self) -> usize
        ensures { result ≡ length (part_of self.now) }
    {
        self.to - self.from
    }

    /// The record with this number, the first of which is 0.
    pub fn get(&self, number: usize) -> RecordAt<'_>
        requires { number < length (part_of self.now) }
        ensures { slice_get (part_of self.now) number ≡ Some (record_of result) }
    {
        self.kept.get(self.from + number)
    }
}
