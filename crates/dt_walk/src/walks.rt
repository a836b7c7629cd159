ghost use Rattle.std.specs.Prelude.{◌≡◌, ℕ, ◌≤◌, ◌^◌, ◌<◌, ◌+◌, ◌%◌, All};
ghost use Rattle.dt_walk.specs.Walk.{AgreeOn, CanWalk, IsEntryAddress, entry_address, is_canonical, is_in_ram, page_address, reads_of, walk_from, walk_of};
ghost use Rattle.dt_walk.specs.declared.arguments.WalkArgs.{WalkArgs};

use crate::arguments::{WalkAnswer, WalkArgs};
use crate::entries::{PAGE_SIZE, is_faulty, is_leaf, page_number, table_of};

/// The first address of RAM.
const RAM_START: u64 = 0x8000_0000;

/// The first address after RAM.
const RAM_END: u64 = 0x8400_0000;

/// The bytes of an entry.
pub const ENTRY_SIZE: u64 = 8;

/// The entries of a table.
pub const ENTRIES: u64 = 512;

/// Gives the page-table entries of one moment of memory.
pub trait PteReader {
    // the entry at each address
    ghost entry: { Self → ℕ → ℕ };

    /// The entry of 64 bits at an address of RAM that is a multiple of 8.
    fn pte(&self, addr: u64) -> u64
        requires aligned { addr % 8 ≡ 0 }
        requires in_ram { 0x8000_0000 ≤ addr }
        requires before_end { addr < 0x8400_0000 }
        ensures { result ≡ entry self.now addr };
}

pub fn is_canonical(levels: u8, va: u64) -> bool
    requires low { 3 ≤ levels }
    requires high { levels ≤ 4 }
    ensures { result ≡ is_canonical levels va }
{
    let untranslated = 9 * levels + 11;
    let high = va >> untranslated;
    high == 0 || high == u64::MAX >> untranslated
}

pub fn entry_address(va: u64, level: u8, table: u64) -> u64
    requires level { level < 4 }
    requires table { table % 4096 ≡ 0 }
    ensures address { result ≡ entry_address va level table }
    ensures aligned { result % 8 ≡ 0 }
{
    table + ENTRY_SIZE * ((va >> (12 + 9 * level)) % ENTRIES)
}

pub fn is_in_ram(addr: u64) -> bool
    ensures { result ≡ is_in_ram addr }
{
    RAM_START <= addr && addr < RAM_END
}

fn page_address(va: u64, level: u8, pte: u64) -> u64
    requires { level < 4 }
    ensures { result ≡ page_address va level pte }
{
    let span = 1u64 << (9 * level);
    let number = page_number(pte) / span * span + va / PAGE_SIZE % span;
    number * PAGE_SIZE + va % PAGE_SIZE
}

/// Walks the page tables for one access: the physical address, or the fault that the access gives.
/// The address stays as it is where addresses are not translated.
#[tactic(auto, unfolding(crate::specs::Walk::walk_of))]
pub fn walk<R: PteReader>(reader: &R, args: WalkArgs) -> WalkAnswer
    requires { CanWalk args }
    ensures { result ≡ walk_of (R.entry reader.now) args }
{
    if !args.on {
        return WalkAnswer::Page(args.va);
    }
    if !is_canonical(args.levels, args.va) {
        return WalkAnswer::PageFault;
    }
    walk_tables(reader, &args)
}

fn walk_tables<R: PteReader>(reader: &R, args: &WalkArgs) -> WalkAnswer
    requires root { args.now.root % 4096 ≡ 0 }
    requires levels { args.now.levels ≤ 4 }
    ensures { result ≡ walk_from (R.entry reader.now) args.now args.now.levels args.now.root }
{
    let mut table = args.root;
    for level in (0..args.levels).rev() {
        let address = entry_address(args.va, level, table);
        if !is_in_ram(address) {
            return WalkAnswer::AccessFault;
        }
        let pte = reader.pte(address);
        if is_faulty(args, level, pte) {
            return WalkAnswer::PageFault;
        }
        if is_leaf(pte) {
            return WalkAnswer::Page(page_address(args.va, level, pte));
        }
        table = table_of(pte);
    }
    WalkAnswer::PageFault
}

/// Law: the answer of a walk depends only on the entries that it reads, and they lie in RAM.
pub fn reads_decide()
    ensures same_answer { (first second : ℕ → ℕ) (a : WalkArgs) →
        AgreeOn (reads_of first a) first second → walk_of second a ≡ walk_of first a }
    ensures same_reads { (first second : ℕ → ℕ) (a : WalkArgs) →
        AgreeOn (reads_of first a) first second → reads_of second a ≡ reads_of first a }
    ensures lie_in_ram { (entry : ℕ → ℕ) (a : WalkArgs) →
        CanWalk a → All IsEntryAddress (reads_of entry a) }
{}
