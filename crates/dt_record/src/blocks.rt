//! Records that are handed on many at a time.
ghost use Rattle.std.specs.Prelude.{◌≡◌, ◌<◌, ◌↔◌, ◌++◌, ◌∷◌, [], IsTrue, IfOk, Some, length, slice_get};
ghost use Rattle.dt_record.specs.Lent.{record_of};

use crate::lent::RecordAt;
use crate::records::Record;
use std::alloc::{AllocError, Global};
use std::marker::Model;

/// How many records a block has at most.
const BLOCK_RECORDS: usize = 4096;

/// Records in their order, up to a number for which room was made at first. A contract sees their
/// list, and `room`, which is 0 where no more fits and falls with each record.
#[derive(Debug, Drop)]
pub struct Block {
    records: Vec<Record>,
}

impl Model for Block {
    ghost use Rattle.std.specs.Prelude.{◌≤◌, ◌-◌, vec_len, vec_capacity};
    ghost use Rattle.dt_record.specs.declared.blocks.TheConstants.{BLOCK_RECORDS};
    ghost use Rattle.dt_record.specs.Blocks.{BlockView};

    ghost Value = { BlockView };

    ghost view = { λ b. record { records = b.records.items; room = BLOCK_RECORDS - vec_len b.records } };

    ghost invariant = { λ b. (vec_len b.records ≤ BLOCK_RECORDS) × (BLOCK_RECORDS ≤ vec_capacity b.records) };
}

impl Block {
    /// An empty block.
    pub fn new(alloc: Global) -> Result<Block, AllocError>
        ensures { IfOk result (λ block. (block.records ≡ []) × (0 < block.room)) }
    {
        let records = Vec::with_capacity(alloc, BLOCK_RECORDS)?;
        Ok(Block { records })
    }

    /// How many records there are.
    pub fn len(&self) -> usize
        ensures { result ≡ length self.now.records }
    {
        self.records.len()
    }

    /// Whether there is room for one more record.
    pub fn has_room(&self) -> bool
        ensures { IsTrue result ↔ (0 < self.now.room) }
    {
        self.records.len() < BLOCK_RECORDS
    }

    /// The record with this number.
    pub fn get(&self, number: usize) -> RecordAt<'_>
        requires { number < length self.now.records }
        ensures { slice_get self.now.records number ≡ Some (record_of result) }
    {
        self.records[number].lent()
    }

    /// Puts a record behind the others.
    pub fn push(&mut self, event: &Record)
        requires { 0 < self.old.room }
        ensures records { self.new.records ≡ self.old.records ++ event.now ∷ [] }
        ensures room { self.new.room < self.old.room }
    {
        self.records.push_reserved(*event);
    }

    /// Forgets the records.
    pub fn clear(&mut self)
        ensures records { self.new.records ≡ [] }
        ensures room { 0 < self.new.room }
    {
        self.records.clear();
    }
}
