ghost use Rattle.std.specs.Prelude.{ℕ, ◌≡◌, ◌==◌, ◌+◌, ◌-◌, ◌/◌, ◌++◌, ◌∷◌, [], ◌<◌, ◌≤◌, if◌then◌else◌, length, slice_get, slice_index, vec_len, vec_capacity, OnOk};
ghost use Rattle.std.specs.List.Sorted.{IsNonDecreasing, IsPartitionPoint};
ghost use Rattle.std.specs.Option.{option_copied};
ghost use Rattle.std.specs.Int.{bit_at};
ghost use Rattle.dt_record.specs.declared.limits.TheConstants.{RAM_START, WRITE_LIMIT};
ghost use Rattle.dt_versions.specs.Chains.{HasRoom, chain_of, line_place, newest_until, number_at, numbered};

use dt_record::{RAM_START, Write};
use std::alloc::AllocError;

/// For each byte of a line the number of the write that it comes from, or 0 where it is the image's.
pub type Row = [u32; 64];

/// The place of the address's line among the lines of RAM.
pub fn line_place(addr: u64) -> usize
    requires { RAM_START ≤ addr }
    ensures { result ≡ line_place addr }
{
    ((addr - RAM_START) / 64) as usize
}

/// How many numbers of a chain are not above k. It looks from the chain's end in growing steps.
pub fn until_len(chain: &[u32], k: u32) -> usize
    requires { IsNonDecreasing chain.now }
    ensures within { result ≤ length chain.now }
    ensures parts { IsPartitionPoint (λ m. m ≤ k) (λ m. k < m) chain.now result }
{
    let mut high = chain.len();
    let mut step = 1;
    'back: while step < high && k < chain[high - step] {
        high -= step;
        step = step.saturating_mul(2);
    }
    let low = high.saturating_sub(step);
    low + count_until(&chain[low..high], k)
}

fn count_until(chain: &[u32], k: u32) -> usize
    requires { IsNonDecreasing chain.now }
    ensures within { result ≤ length chain.now }
    ensures parts { IsPartitionPoint (λ m. m ≤ k) (λ m. k < m) chain.now result }
{
    chain.partition_point(|m| *m <= k)
}

/// The last number of a chain that is not above k, or 0.
pub fn newest_until(chain: &[u32], k: u32) -> u32
    requires { IsNonDecreasing chain.now }
    ensures { result ≡ newest_until chain.now k }
{
    let count = until_len(chain, k);
    if count == 0 { 0 } else { chain[count - 1] }
}

/// The number of the newest of the first k writes to the line at a place, or 0.
pub fn newest_at(lines: &[Vec<u32>], place: usize, k: u32) -> u32
    requires { IsNonDecreasing (chain_of lines.now place) }
    ensures { result ≡ newest_until (chain_of lines.now place) k }
{
    match lines.get(place) {
        Some(chain) => newest_until(chain, k),
        None => 0,
    }
}

/// The chain at a place.
pub fn chain_at(lines: &[Vec<u32>], place: usize) -> &[u32]
    ensures { result.now ≡ chain_of lines.now place }
{
    match lines.get(place) {
        Some(chain) => chain,
        None => &[],
    }
}

/// The number at a place of a chain.
pub fn moment_in(chain: &[u32], place: usize) -> Option<u32>
    ensures { result ≡ slice_get chain.now place }
{
    chain.get(place).copied()
}

/// The row with this number.
pub fn numbered_row(rows: &[Row], n: u32) -> Option<&Row>
    ensures { option_copied result ≡ numbered rows.now n }
{
    if n == 0 {
        None
    } else {
        rows.get(n as usize - 1)
    }
}

/// The write with this number.
pub fn numbered_write(writes: &[Write], n: u32) -> Option<&Write>
    ensures { option_copied result ≡ numbered writes.now n }
{
    if n == 0 {
        None
    } else {
        writes.get(n as usize - 1)
    }
}

/// The number that a row has at a place of its line.
pub fn number_at(rows: &[Row], n: u32, place: usize) -> u32
    requires { place < 64 }
    ensures { result ≡ number_at rows.now n place }
{
    match numbered_row(rows, n) {
        Some(row) => row[place],
        None => 0,
    }
}

/// The row after a write with this number, over the row that stood before it.
pub fn row_after(rows: &[Row], newest: u32, mask: u64, number: u32) -> Row
    ensures { (i : ℕ) → i < 64 → slice_index result i ≡ (if bit_at mask i == 1 then number else number_at rows.now newest i) }
{
    let mut row = row_before(rows, newest);
    for i in 0..64 {
        row[i] = chosen(mask, i, number, row[i]);
    }
    row
}

/// The row with this number, or that of the image alone.
fn row_before(rows: &[Row], newest: u32) -> Row
    ensures { (i : ℕ) → i < 64 → slice_index result i ≡ number_at rows.now newest i }
{
    match numbered_row(rows, newest) {
        Some(row) => *row,
        None => [0; 64],
    }
}

/// The write's number where its mask has the byte, else the number that stood there.
fn chosen(mask: u64, place: usize, number: u32, before: u32) -> u32
    requires { place < 64 }
    ensures { result ≡ (if bit_at mask place == 1 then number else before) }
{
    if (mask >> place) & 1 == 1 {
        number
    } else {
        before
    }
}

/// Makes room for one more number in the chain at a place. The chains stay as they are.
pub fn make_room(lines: &mut Vec<Vec<u32>>, place: usize) -> Result<(), AllocError>
    requires { place < WRITE_LIMIT }
    ensures same { (other : ℕ) → chain_of lines.new.items other ≡ chain_of lines.old.items other }
    ensures room { OnOk result (HasRoom lines.new.items place) }
{
    grow(lines, place)?;
    lines[place].reserve(1)
}

/// Adds empty chains until there is one at the place.
fn grow(lines: &mut Vec<Vec<u32>>, place: usize) -> Result<(), AllocError>
    requires { place < WRITE_LIMIT }
    ensures same { (other : ℕ) → chain_of lines.new.items other ≡ chain_of lines.old.items other }
    ensures there { OnOk result (place < vec_len lines.new) }
{
    let alloc = *lines.allocator();
    'growing: while lines.len() <= place {
        lines.push(Vec::new(alloc))?;
    }
    Ok(())
}

/// Adds a number to the chain at a place, in which there is room.
pub fn push_moment(lines: &mut Vec<Vec<u32>>, place: usize, number: u32)
    requires { HasRoom lines.old.items place }
    ensures { (other : ℕ) → chain_of lines.new.items other
        ≡ (if other == place then chain_of lines.old.items place ++ number ∷ [] else chain_of lines.old.items other) }
{
    if let Some(chain) = lines.get_mut(place) {
        let _ = chain.push(number);
    }
}

/// Adds an element to a list that has room for it.
pub fn push_into_room<T: Copy>(xs: &mut Vec<T>, x: T)
    requires { vec_len xs.old < vec_capacity xs.old }
    ensures { xs.new.items ≡ xs.old.items ++ x ∷ [] }
{
    let _ = xs.push(x);
}
