ghost use Rattle.std.specs.Prelude.{◌≡◌, ◌^◌, ◌<◌, ◌%◌, ◌≤◌};
ghost use Rattle.dt_walk.specs.Entry.{is_broken, leaf_bits, permits};
ghost use Rattle.dt_walk.specs.Leaf.{CanFind, LeafDecides, OffsetIsKept, entry_place, is_canonical_page, leaf_from, leaf_of, physical_page};

use crate::arguments::WalkArgs;
use crate::entries::{
    is_aligned, is_faulty_pointer, is_leaf, is_marked, is_valid_entry, page_number, permits_access,
    permits_mode, table_of,
};
use crate::walks::{ENTRIES, ENTRY_SIZE, PteReader, is_in_ram};

/// The page tables of one address space.
#[derive(Clone, Copy, Debug, PartialEq, Eq)]
pub struct Tables {
    /// The physical address of the first table, a multiple of 4096: satp's PPN times 4096.
    pub root: u64,
    /// How many levels the tables have: 3 (Sv39) or 4 (Sv48).
    pub levels: u8,
}

/// What page tables have for a page, whoever asks.
#[derive(Clone, Copy, Debug, PartialEq, Eq)]
pub enum LeafAnswer {
    Leaf {
        /// The number of the physical page, of at most 44 bits.
        page: u64,
        /// The leaf's bits 7 to 0: D, A, G, U, X, W, R and V.
        bits: u8,
    },
    PageFault,
    /// A page-table entry lies outside RAM.
    AccessFault,
}

fn is_canonical_page(levels: u8, page: u64) -> bool
    requires low { 3 ≤ levels }
    requires high { levels ≤ 4 }
    ensures { result ≡ is_canonical_page levels page }
{
    let high = page >> (9 * levels - 1);
    high == 0 || high == u64::MAX >> (9 * levels + 11)
}

/// The address of a page's entry in a table of a level; level 0 has the leaves of 4 KiB.
pub fn entry_place(page: u64, level: u8, table: u64) -> u64
    requires level { level < 4 }
    requires table { table % 4096 ≡ 0 }
    ensures address { result ≡ entry_place page level table }
    ensures aligned { result % 8 ≡ 0 }
{
    table + ENTRY_SIZE * ((page >> (9 * level)) % ENTRIES)
}

fn physical_page(page: u64, level: u8, pte: u64) -> u64
    requires { level < 4 }
    ensures { result ≡ physical_page page level pte }
{
    let span = 1u64 << (9 * level);
    page_number(pte) / span * span + page % span
}

fn is_broken(level: u8, pte: u64) -> bool
    requires { level < 4 }
    ensures { result ≡ is_broken level pte }
{
    if !is_valid_entry(pte) {
        return true;
    }
    if is_leaf(pte) {
        !is_aligned(level, pte)
    } else {
        is_faulty_pointer(level, pte)
    }
}

fn leaf_bits(pte: u64) -> u8
    ensures { result ≡ leaf_bits pte }
{
    (pte % 256) as u8
}

/// Whether a leaf with these bits gives the access its page.
pub fn permits(args: &WalkArgs, bits: u8) -> bool
    ensures { result ≡ permits args.now bits }
{
    let pte = u64::from(bits);
    is_marked(args.access, pte)
        && permits_access(args.access, args.mxr, pte)
        && permits_mode(args, pte)
}

/// Finds the leaf that the tables have for a page, by its number.
#[tactic(auto, unfolding(crate::specs::Leaf::leaf_of))]
pub fn find_leaf<R: PteReader>(reader: &R, tables: Tables, page: u64) -> LeafAnswer
    requires { CanFind tables }
    ensures { result ≡ leaf_of (R.entry reader.now) tables page }
{
    if !is_canonical_page(tables.levels, page) {
        return LeafAnswer::PageFault;
    }
    find_below(reader, tables, page)
}

fn find_below<R: PteReader>(reader: &R, tables: Tables, page: u64) -> LeafAnswer
    requires root { tables.root % 4096 ≡ 0 }
    requires levels { tables.levels ≤ 4 }
    ensures { result ≡ leaf_from (R.entry reader.now) page tables.levels tables.root }
{
    let mut table = tables.root;
    for level in (0..tables.levels).rev() {
        let address = entry_place(page, level, table);
        if !is_in_ram(address) {
            return LeafAnswer::AccessFault;
        }
        let pte = reader.pte(address);
        if is_broken(level, pte) {
            return LeafAnswer::PageFault;
        }
        if is_leaf(pte) {
            return LeafAnswer::Leaf {
                page: physical_page(page, level, pte),
                bits: leaf_bits(pte),
            };
        }
        table = table_of(pte);
    }
    LeafAnswer::PageFault
}

/// Law: a translation is decided by the leaf of its page, and then by the leaf's bits and who asks; and
/// an address keeps its place in the page.
pub fn leaf_decides()
    ensures decides { LeafDecides }
    ensures offset { OffsetIsKept }
{}
