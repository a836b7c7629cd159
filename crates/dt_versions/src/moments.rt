ghost use Rattle.std.specs.Prelude.{◌≡◌, ℕ, ◌-◌, ◌%◌, ◌++◌, ◌∷◌, [], ◌<◌, ◌≤◌, ◌↔◌, length, IsTrue, OnOk, OnErr, IfSome, IfNone};
ghost use Rattle.std.specs.List.{list_all};
ghost use Rattle.dt_record.specs.declared.limits.TheConstants.{RAM_END, RAM_START};
ghost use Rattle.dt_record.specs.Keys.{key_below};
ghost use Rattle.dt_record.specs.Memory.{memory_at, source_at, moment_of, is_touched};
ghost use Rattle.dt_versions.specs.History.{history, are_in_order, IsKept, CanAdd};
ghost use Rattle.dt_versions.specs.Spans.{AreVisible};
ghost use Rattle.dt_versions.specs.Words.{IsSteady, IsChange, double_at};

use crate::chains::{
    Row, chain_at, line_place, make_room, moment_in, newest_at, newest_until, push_into_room,
    push_moment, row_after, until_len,
};
use crate::reads::last_cover;
use crate::views::{earlier_len, is_touched, visible_ends};
use crate::words::{newest_in_word, unchanged_until, word_at, word_place};
use dt_record::{Image, Key, WRITE_LIMIT, Write, is_ram_line};
use std::alloc::{AllocError, Global};
use std::marker::Model;

/// The moments from the first to the last.
#[derive(Clone, Copy, Debug, PartialEq, Eq)]
pub struct Span {
    pub first: u32,
    pub last: u32,
}

/// An image and the writes that happened over it. A contract sees both as lists.
#[derive(Debug, Drop)]
pub struct Moments {
    base: Image,
    writes: Vec<Write>,
    /// A row for each write: which writes the bytes of its line come from after it.
    rows: Vec<Row>,
    /// By a line's place in RAM, the numbers of the writes to it.
    lines: Vec<Vec<u32>>,
}

impl Model for Moments {
    ghost use Rattle.dt_versions.specs.Chains.{IsChained, chain_of};
    ghost use Rattle.dt_versions.specs.History.{History, history, IsKept};

    ghost Value = { History };

    ghost view = { λ m. history m.base m.writes.items };

    ghost invariant = { λ m. IsKept (history m.base m.writes.items) × IsChained m.writes.items m.rows.items (chain_of m.lines.items) };
}

impl Moments {
    /// The image alone: nothing is written yet.
    pub fn empty(alloc: Global, base: Image) -> Moments
        ensures { result ≡ history base [] }
    {
        Moments {
            base,
            writes: Vec::new(alloc),
            rows: Vec::new(alloc),
            lines: Vec::new(alloc),
        }
    }

    /// Whether a write can be added: its key is above all keys held, its line is one of RAM, and
    /// there is room for it.
    pub fn can_add(&self, w: &Write) -> bool
        ensures { IsTrue result ↔ CanAdd self.now w.now }
    {
        is_above_all(&self.writes, w.key)
            && is_ram_line(w.line)
            && self.writes.len() < WRITE_LIMIT as usize
    }

    /// Adds a write as the newest one, where `can_add` says that it may be. An `Err` is want of
    /// memory.
    pub fn add(&mut self, w: Write) -> Result<(), AllocError>
        requires { CanAdd self.old w }
        ensures added { OnOk result (self.new ≡ history self.old.image (self.old.writes ++ w ∷ [])) }
        ensures unchanged { OnErr result (self.new ≡ self.old) }
    {
        self.writes.reserve(1)?;
        self.rows.reserve(1)?;
        let place = line_place(w.line);
        make_room(&mut self.lines, place)?;
        let count = self.writes.len() as u32;
        let newest = newest_at(&self.lines, place, count);
        let row = row_after(&self.rows, newest, w.mask, count + 1);
        push_moment(&mut self.lines, place, count + 1);
        push_into_room(&mut self.rows, row);
        push_into_room(&mut self.writes, w);
        Ok(())
    }

    /// How many writes are held, which is the last moment.
    pub fn count(&self) -> u32
        ensures count { result ≡ length self.now.writes }
        ensures kept { IsKept self.now }
    {
        self.writes.len() as u32
    }

    /// How many writes have a key below this one: the moment at which an atomic takes place.
    pub fn count_below(&self, key: Key) -> u32
        ensures { result ≡ moment_of self.now.writes key }
    {
        earlier_len(&self.writes, key) as u32
    }

    /// The byte at an address of RAM after the first k writes.
    pub fn byte(&self, k: u32, addr: u64) -> u8
        requires within { k ≤ length self.now.writes }
        requires in_ram { RAM_START ≤ addr }
        requires before_end { addr < RAM_END }
        ensures { result ≡ memory_at self.now.image self.now.writes k addr }
    {
        match last_cover(&self.writes, &self.rows, &self.lines, k, addr) {
            Some(w) => w.bytes[(addr % 64) as usize],
            None => self.base.byte(addr),
        }
    }

    /// The key of the write that the byte comes from after the first k writes, or none where it is
    /// the image's.
    pub fn source(&self, k: u32, addr: u64) -> Option<Key>
        requires within { k ≤ length self.now.writes }
        requires in_ram { RAM_START ≤ addr }
        requires before_end { addr < RAM_END }
        ensures { result ≡ source_at self.now.writes k addr }
    {
        last_cover(&self.writes, &self.rows, &self.lines, k, addr).map(|w| w.key)
    }

    /// The number of 64 bits at an address of RAM after the first k writes, its low byte first.
    pub fn word(&self, k: u32, addr: u64) -> u64
        requires within { k ≤ length self.now.writes }
        requires aligned { addr % 8 ≡ 0 }
        requires in_ram { RAM_START ≤ addr }
        requires before_end { addr < RAM_END }
        ensures { result ≡ double_at self.now.image self.now.writes k addr }
    {
        word_at(&self.base, &self.writes, &self.rows, &self.lines, k, addr)
    }

    /// The least moment from which on, up to moment k, no byte of the word that holds the address
    /// changes its source.
    pub fn steady_from(&self, k: u32, addr: u64) -> u32
        requires within { k ≤ length self.now.writes }
        requires in_ram { RAM_START ≤ addr }
        requires before_end { addr < RAM_END }
        ensures within { result ≤ k }
        ensures steady { IsSteady self.now.writes addr result k }
        ensures least { 0 < result → IsChange self.now.writes addr result }
    {
        let newest = newest_at(&self.lines, line_place(addr), k);
        newest_in_word(&self.rows, newest, word_place(addr))
    }

    /// The first moment after moment k at which a byte of the word that holds the address changes
    /// its source.
    pub fn next_change(&self, k: u32, addr: u64) -> Option<u32>
        requires within { k ≤ length self.now.writes }
        requires in_ram { RAM_START ≤ addr }
        requires before_end { addr < RAM_END }
        ensures above { IfSome result (λ n. k < n) }
        ensures reached { IfSome result (λ n. n ≤ length self.now.writes) }
        ensures steady { IfSome result (λ n. IsSteady self.now.writes addr k (n - 1)) }
        ensures change { IfSome result (λ n. IsChange self.now.writes addr n) }
        ensures none { IfNone result (IsSteady self.now.writes addr k (length self.now.writes)) }
    {
        let chain = chain_at(&self.lines, line_place(addr));
        let start = word_place(addr);
        let newest = newest_until(chain, k);
        let limit = newest_in_word(&self.rows, newest, start);
        let from = until_len(chain, k);
        let next = unchanged_until(&self.rows, chain, from, start, limit);
        moment_in(chain, next)
    }

    /// Whether another hart than this one writes to the line between two keys.
    pub fn touched(&self, line: u64, from: Key, to: Key, but: u8) -> bool
        ensures { result ≡ is_touched self.now.writes line from to but }
    {
        is_touched(&self.writes, line, from, to, but)
    }

    /// The moments that a record may see in a cycle.
    pub fn visible(&self, key: Key, at: u64) -> Span
        requires { at ≤ key.stamp }
        ensures visible { AreVisible self.now.writes key at result.first result.last }
        ensures within { result.last ≤ length self.now.writes }
    {
        let (first, last) = visible_ends(&self.writes, key, at);
        Span {
            first: first as u32,
            last: last as u32,
        }
    }
}

/// Whether a key is above those of all writes, which stand in their order.
fn is_above_all(writes: &[Write], key: Key) -> bool
    requires { IsTrue (are_in_order writes.now) }
    ensures { result ≡ list_all (λ w. key_below w.key key) writes.now }
{
    match writes.last() {
        Some(w) => w.key < key,
        None => true,
    }
}
