ghost use Rattle.std.specs.Prelude.{◌≡◌, ◌+◌, ◌≤◌, ◌%◌, ◌↔◌, None, IfSome, IsTrue, if◌then◌else◌, length, take, drop, ◌++◌};
ghost use Rattle.dt_record.specs.Actions.{Held, store_covers, is_on, is_waiting, is_undrained};
ghost use Rattle.dt_record.specs.Keys.{KeyBelow};
ghost use Rattle.dt_record.specs.LoadSources.{stored_byte};
ghost use Rattle.dt_record.specs.Memory.{line_of};
ghost use Rattle.dt_record.specs.Writes.{width_mask};
ghost use Rattle.dt_stores.specs.Draining.{is_barring, forward_of};
ghost use Rattle.dt_stores.specs.Oldest.{is_asked};
ghost use Rattle.dt_stores.specs.Places.{is_store_place};
ghost use Rattle.dt_stores.specs.Taking.{put_over};

use crate::answers::{Forward, Which};
use crate::lines::line_of;
use dt_record::{Key, OwnStore};
use std::marker::Model;

/// A store in the store buffer.
#[derive(Debug, Drop)]
pub struct Entry {
    store: OwnStore,
    /// How many write-before-write fences stand before it.
    barrier: u32,
    /// How many write-before-read fences stand before it.
    readers: u32,
    /// The key of the drain that has taken it.
    drained: Option<Key>,
}

impl Model for Entry {
    ghost use Rattle.std.specs.Prelude.{IsTrue};
    ghost use Rattle.dt_record.specs.Actions.{Held};
    ghost use Rattle.dt_stores.specs.Places.{is_store_place};

    ghost Value = { Held };

    ghost view = { λ e. record { store = e.store; barrier = e.barrier; readers = e.readers; drained = e.drained } };

    ghost invariant = { λ e. IsTrue (is_store_place e.store) };
}

impl Entry {
    pub fn new(store: OwnStore, barrier: u32, readers: u32) -> Entry
        requires { IsTrue (is_store_place store) }
        ensures { result ≡ record { store = store; barrier = barrier; readers = readers; drained = None } }
    {
        Entry {
            store,
            barrier,
            readers,
            drained: None,
        }
    }

    pub fn seq(&self) -> u32
        ensures { result ≡ self.now.store.seq }
    {
        self.store.seq
    }

    /// The line that holds the store.
    pub fn line(&self) -> u64
        ensures { result ≡ line_of self.now.store.addr }
    {
        line_of(self.store.addr)
    }

    pub fn barrier(&self) -> u32
        ensures { result ≡ self.now.barrier }
    {
        self.barrier
    }

    fn is_on(&self, line: u64) -> bool
        ensures { result ≡ is_on line self.now.store }
    {
        self.store.addr - self.store.addr % 64 == line
    }

    pub fn is_waiting(&self) -> bool
        ensures { result ≡ is_waiting self.now }
    {
        self.drained.is_none()
    }

    pub fn is_barring(&self, line: u64, barrier: u32) -> bool
        ensures { result ≡ is_barring line barrier self.now }
    {
        self.is_waiting() && !self.is_on(line) && self.barrier < barrier
    }

    /// Whether the drain that has taken the store, if any, has a key below this one.
    pub fn is_drained_before(&self, key: Key) -> bool
        ensures { IsTrue result ↔ IfSome self.now.drained (λ k. KeyBelow k key) }
    {
        match self.drained {
            None => true,
            Some(drained) => drained < key,
        }
    }

    /// Whether no drain with a stamp of at most this cycle has taken the store.
    pub fn is_undrained(&self, at: u64) -> bool
        ensures { result ≡ is_undrained at self.now }
    {
        match self.drained {
            None => true,
            Some(key) => at < key.stamp,
        }
    }

    pub fn covers(&self, addr: u64) -> bool
        ensures { result ≡ store_covers addr self.now.store }
    {
        self.store.addr <= addr && addr - self.store.addr < u64::from(self.store.width)
    }

    pub fn is_asked(&self, ww: u32, wr: u32, which: Which) -> bool
        ensures { result ≡ is_asked ww wr which self.now }
    {
        match which {
            Which::All => true,
            Which::Line(line) => self.is_on(line),
            Which::BeforeWr => self.readers < wr,
            Which::BeforeWw => self.barrier < ww,
        }
    }

    /// What a load has from this store at an address that it covers.
    pub fn forward(&self, addr: u64) -> Forward
        requires { IsTrue (store_covers addr self.now.store) }
        ensures { result ≡ forward_of addr self.now }
    {
        Forward {
            seq: self.store.seq,
            byte: self.byte(addr),
            drained: self.drained,
        }
    }

    fn byte(&self, addr: u64) -> u8
        requires { IsTrue (store_covers addr self.now.store) }
        ensures { result ≡ stored_byte addr self.now }
    {
        let place = 8 * (addr - self.store.addr);
        ((self.store.value >> place) % 256) as u8
    }

    /// The store's place in its line, which holds all its bytes.
    fn place(&self) -> usize
        ensures at { result ≡ self.now.store.addr % 64 }
        ensures within { result + self.now.store.width ≤ 64 }
        ensures narrow { self.now.store.width ≤ 8 }
    {
        let _aligned = self.store.addr % u64::from(self.store.width);
        (self.store.addr % 64) as usize
    }

    /// The mask of the bytes of its line that the store covers.
    pub fn mask(&self) -> u64
        ensures { result ≡ width_mask (self.now.store.addr % 64) self.now.store.width }
    {
        let place = self.place();
        ((1 << self.store.width) - 1) << place
    }

    /// Puts the store's bytes over those of its line.
    pub fn put_over(&self, bytes: &mut [u8])
        requires { length bytes.old ≡ 64 }
        ensures { bytes.new ≡ put_over bytes.old self.now.store }
    {
        let place = self.place();
        let low = self.store.value.to_le_bytes();
        put(bytes, place, &low[..usize::from(self.store.width)]);
    }

    /// Notes the drain that has taken the store, or that none has.
    pub fn set_drained(&mut self, drain: Option<Key>)
        ensures { self.new ≡ record self.old { drained = drain } }
    {
        self.drained = drain;
    }

    /// The same store.
    pub fn copy(&self) -> Entry
        ensures { result ≡ self.now }
    {
        Entry {
            store: self.store,
            barrier: self.barrier,
            readers: self.readers,
            drained: self.drained,
        }
    }
}

fn put(bytes: &mut [u8], place: usize, piece: &[u8])
    requires { place + length piece.now ≤ length bytes.old }
    ensures { bytes.new ≡ take place bytes.old ++ piece.now ++ drop (place + length piece.now) bytes.old }
{
    let end = place + piece.len();
    bytes[place..end].copy_from_slice(piece);
}
