ghost use Rattle.std.specs.Prelude.{◌≡◌, ◌≤◌, ◌^◌, ◌<◌, ◌+◌, ◌*◌};
ghost use Rattle.dt_walk.specs.Entry.{has_bit, is_aligned, is_faulty, is_faulty_leaf, is_faulty_pointer, is_leaf, is_marked, is_valid_entry, page_number, permits_access, permits_mode, table_of};

use crate::arguments::{Access, WalkArgs};

/// The bytes of a page and of a table.
pub const PAGE_SIZE: u64 = 4096;

/// The place of bit V: the entry is in use.
const VALID: u32 = 0;

/// The place of bit R.
const READ: u32 = 1;

/// The place of bit W.
const WRITE: u32 = 2;

/// The place of bit X.
const EXECUTE: u32 = 3;

/// The place of bit U: the page belongs to U mode.
const USER: u32 = 4;

/// The place of bit A.
const ACCESSED: u32 = 6;

/// The place of bit D.
const DIRTY: u32 = 7;

/// The lowest bit of the physical page number.
const PAGE_NUMBER: u32 = 10;

/// The lowest of the reserved bits above the page number.
const RESERVED: u32 = 54;

/// The effective mode U.
const USER_MODE: u8 = 0;

fn has_bit(pte: u64, place: u32) -> bool
    requires { place < 64 }
    ensures { result ≡ has_bit pte place }
{
    (pte >> place) & 1 == 1
}

/// The physical page number, of 44 bits.
pub fn page_number(pte: u64) -> u64
    ensures { result ≡ page_number pte }
{
    (pte >> PAGE_NUMBER) % (1 << (RESERVED - PAGE_NUMBER))
}

/// The address of the table that the entry points to.
pub fn table_of(pte: u64) -> u64
    ensures { result ≡ table_of pte }
{
    page_number(pte) * PAGE_SIZE
}

/// Whether the entry maps a page. Any other entry points to a table.
pub fn is_leaf(pte: u64) -> bool
    ensures { result ≡ is_leaf pte }
{
    has_bit(pte, READ) || has_bit(pte, EXECUTE)
}

pub fn is_valid_entry(pte: u64) -> bool
    ensures { result ≡ is_valid_entry pte }
{
    let has_lawful_rights = has_bit(pte, READ) || !has_bit(pte, WRITE);
    has_bit(pte, VALID) && has_lawful_rights && pte >> RESERVED == 0
}

pub fn is_aligned(level: u8, pte: u64) -> bool
    requires { level < 4 }
    ensures { result ≡ is_aligned level pte }
{
    page_number(pte) % (1 << (9 * level)) == 0
}

pub fn is_marked(access: Access, pte: u64) -> bool
    ensures { result ≡ is_marked access pte }
{
    match access {
        Access::Fetch | Access::Load => has_bit(pte, ACCESSED),
        Access::Store => has_bit(pte, ACCESSED) && has_bit(pte, DIRTY),
    }
}

pub fn permits_access(access: Access, mxr: bool, pte: u64) -> bool
    ensures { result ≡ permits_access access mxr pte }
{
    match access {
        Access::Fetch => has_bit(pte, EXECUTE),
        Access::Load => has_bit(pte, READ) || (mxr && has_bit(pte, EXECUTE)),
        Access::Store => has_bit(pte, WRITE),
    }
}

pub fn permits_mode(args: &WalkArgs, pte: u64) -> bool
    ensures { result ≡ permits_mode args.now pte }
{
    if has_bit(pte, USER) {
        args.mode == USER_MODE || (args.sum && args.access != Access::Fetch)
    } else {
        args.mode != USER_MODE
    }
}

fn is_faulty_leaf(args: &WalkArgs, level: u8, pte: u64) -> bool
    requires { level < 4 }
    ensures { result ≡ is_faulty_leaf args.now level pte }
{
    !is_aligned(level, pte)
        || !is_marked(args.access, pte)
        || !permits_access(args.access, args.mxr, pte)
        || !permits_mode(args, pte)
}

pub fn is_faulty_pointer(level: u8, pte: u64) -> bool
    ensures { result ≡ is_faulty_pointer level pte }
{
    level == 0 || has_bit(pte, ACCESSED) || has_bit(pte, DIRTY) || has_bit(pte, USER)
}

/// Whether the entry, found at this level, gives a page fault.
pub fn is_faulty(args: &WalkArgs, level: u8, pte: u64) -> bool
    requires { level < 4 }
    ensures { result ≡ is_faulty args.now level pte }
{
    if !is_valid_entry(pte) {
        return true;
    }
    if is_leaf(pte) {
        is_faulty_leaf(args, level, pte)
    } else {
        is_faulty_pointer(level, pte)
    }
}
