//! What a snapshot file says of one hart.
ghost use Rattle.std.specs.Prelude.{◌≡◌, ◌↔◌, IsTrue};

use crate::keys::Key;
use std::marker::Model;

/// A page and the last fence that covered it alone.
#[derive(Clone, Copy, Debug, PartialEq, Eq)]
pub struct PageMark {
    /// The page's number: the bits from 12 on of its virtual addresses.
    pub page: u64,
    /// How many records the hart had up to and with that SFENCE.VMA.
    pub seq: u32,
}

/// A byte of RAM and the newest write that the hart knows for it.
#[derive(Clone, Copy, Debug, PartialEq, Eq)]
pub struct KnownByte {
    pub addr: u64,
    pub key: Key,
}

/// Marks of pages. A contract sees them as their list.
#[derive(Debug, Drop)]
pub struct Pages {
    items: Vec<PageMark>,
}

impl Model for Pages {
    ghost use Rattle.std.specs.Prelude.{List};
    ghost use Rattle.dt_record.specs.declared.states.PageMark.{PageMark};

    ghost Value = { List PageMark };

    ghost view = { λ pages. pages.items.items };
}

fn are_same_pages(marks: &[PageMark], others: &[PageMark]) -> bool
    ensures { IsTrue result ↔ marks.now ≡ others.now }
{
    marks == others
}

fn are_same_bytes(bytes: &[KnownByte], others: &[KnownByte]) -> bool
    ensures { IsTrue result ↔ bytes.now ≡ others.now }
{
    bytes == others
}

/// What a hart is after the records below a cut, as a snapshot file says it.
#[derive(Debug, Drop)]
pub struct HartState {
    /// How many records came.
    pub seq: u32,
    pub pc: u64,
    /// The registers x1 to x31.
    pub x: [u64; 31],
    /// The mode: 0, 1 or 3.
    pub mode: u8,
    /// The CSRs, in the order of a `Csrs` record.
    pub v: [u64; 17],
    /// What the counters may not be below: cycle, instret and time.
    pub floors: [u64; 3],
    /// The cycle that the next load may not be below.
    pub order: u64,
    /// How many records came up to and with the last SFENCE.VMA that covers all pages, or 0.
    pub all_pages: u32,
    /// The pages that a later SFENCE.VMA covers alone, by page.
    pub pages: Pages,
    /// The bytes of RAM of which the hart knows a write, by address.
    pub known: Known,
}

impl Pages {
    /// These marks, in their order.
    pub fn of(items: Vec<PageMark>) -> Pages
        ensures { result ≡ items.items }
    {
        Pages { items }
    }

    /// Whether the others are the same marks.
    pub fn is_same(&self, other: &Pages) -> bool
        ensures { IsTrue result ↔ self.now ≡ other.now }
    {
        are_same_pages(self.items(), other.items())
    }

    /// The marks, given back.
    pub fn into_items(self) -> Vec<PageMark>
        ensures { result.items ≡ self }
    {
        self.items
    }

    /// The marks.
    pub fn items(&self) -> &[PageMark]
        ensures { result.now ≡ self.now }
    {
        self.items.as_slice()
    }
}

/// Known bytes. A contract sees them as their list.
#[derive(Debug, Drop)]
pub struct Known {
    items: Vec<KnownByte>,
}

impl Model for Known {
    ghost use Rattle.std.specs.Prelude.{List};
    ghost use Rattle.dt_record.specs.declared.states.KnownByte.{KnownByte};

    ghost Value = { List KnownByte };

    ghost view = { λ known. known.items.items };
}

impl Known {
    /// These bytes, in their order.
    pub fn of(items: Vec<KnownByte>) -> Known
        ensures { result ≡ items.items }
    {
        Known { items }
    }

    /// Whether the others are the same bytes.
    pub fn is_same(&self, other: &Known) -> bool
        ensures { IsTrue result ↔ self.now ≡ other.now }
    {
        are_same_bytes(self.items(), other.items())
    }

    /// The bytes, given back.
    pub fn into_items(self) -> Vec<KnownByte>
        ensures { result.items ≡ self }
    {
        self.items
    }

    /// The bytes.
    pub fn items(&self) -> &[KnownByte]
        ensures { result.now ≡ self.now }
    {
        self.items.as_slice()
    }
}

fn are_same_numbers(numbers: &[u64], others: &[u64]) -> bool
    ensures { IsTrue result ↔ numbers.now ≡ others.now }
{
    numbers == others
}

impl HartState {
    /// Whether the other state is the same.
    pub fn is_same(&self, other: &HartState) -> bool
        ensures { IsTrue result ↔ self.now ≡ other.now }
    {
        self.seq == other.seq
            && self.pc == other.pc
            && are_same_numbers(&self.x, &other.x)
            && self.mode == other.mode
            && are_same_numbers(&self.v, &other.v)
            && are_same_numbers(&self.floors, &other.floors)
            && self.order == other.order
            && self.all_pages == other.all_pages
            && self.pages.is_same(&other.pages)
            && self.known.is_same(&other.known)
    }
}
