ghost use Rattle.std.specs.Prelude.{◌≡◌, ℕ, ◌+◌, ◌*◌, ◌/◌, ◌%◌, ◌<◌, ◌≤◌, true, false, length, slice_index, slice_index_or};
ghost use Rattle.std.specs.List.Sorted.{IsPartitionPoint, IsPartitionedBy};
ghost use Rattle.std.specs.Option.{option_map_or};
ghost use Rattle.dt_record.specs.declared.limits.TheConstants.{RAM_END, RAM_START};
ghost use Rattle.dt_record.specs.Image.{image_byte};
ghost use Rattle.dt_versions.specs.Chains.{IsChained, chain_of, is_unchanged, number_at, numbered};
ghost use Rattle.dt_versions.specs.Words.{double_at};

use crate::chains::{Row, line_place, newest_at, number_at, numbered_row, numbered_write};
use dt_record::{Image, Write};

/// The place in its line of the word that holds the address.
pub fn word_place(addr: u64) -> usize
    ensures place { result ≡ addr % 64 / 8 * 8 }
    ensures within { result ≤ 56 }
{
    (addr % 64 / 8 * 8) as usize
}

/// The last of the writes that the bytes of a word come from after the write with this number; 0
/// where all are the image's.
pub fn newest_in_word(rows: &[Row], n: u32, start: usize) -> u32
    requires { start ≤ 56 }
    ensures bound { (i : ℕ) → i < 8 → number_at rows.now n (start + i) ≤ result }
    ensures among { 0 < result → (i : ℕ) × (i < 8) × (number_at rows.now n (start + i) ≡ result) }
{
    match numbered_row(rows, n) {
        Some(row) => greatest(&row[start..start + 8]),
        None => 0,
    }
}

/// The greatest of some numbers, or 0.
fn greatest(numbers: &[u32]) -> u32
    ensures bound { (i : ℕ) → i < length numbers.now → slice_index numbers.now i ≤ result }
    ensures among { 0 < result → (i : ℕ) × (i < length numbers.now) × (slice_index numbers.now i ≡ result) }
{
    let mut most = 0;
    for number in numbers {
        most = u32::max(most, *number);
    }
    most
}

/// Whether all bytes of a word come from writes up to a limit, after the write with this number.
fn is_unchanged(rows: &[Row], n: u32, start: usize, limit: u32) -> bool
    requires { start ≤ 56 }
    ensures { result ≡ is_unchanged rows.now start limit n }
{
    match numbered_row(rows, n) {
        Some(row) => row[start..start + 8].iter().all(|number| *number <= limit),
        None => true,
    }
}

/// The first place of a chain, from one on, at which a word has changed. It looks in growing steps.
pub fn unchanged_until(rows: &[Row], chain: &[u32], from: usize, start: usize, limit: u32) -> usize
    requires start { start ≤ 56 }
    requires from { from ≤ length chain.now }
    requires parted { IsPartitionedBy (is_unchanged rows.now start limit) chain.now }
    ensures within { result ≤ length chain.now }
    ensures passed { (i d : ℕ) → from ≤ i → i < result → is_unchanged rows.now start limit (slice_index_or chain.now i d) ≡ true }
    ensures end { (i d : ℕ) → result ≤ i → i < length chain.now → is_unchanged rows.now start limit (slice_index_or chain.now i d) ≡ false }
{
    let mut low = from;
    let mut step = 1;
    'ahead: while step <= chain.len() - low
        && is_unchanged(rows, chain[low + step - 1], start, limit)
    {
        low += step;
        step = step.saturating_mul(2);
    }
    let high = usize::min(chain.len(), low.saturating_add(step));
    low + count_unchanged(rows, &chain[low..high], start, limit)
}

fn count_unchanged(rows: &[Row], chain: &[u32], start: usize, limit: u32) -> usize
    requires start { start ≤ 56 }
    requires parted { IsPartitionedBy (is_unchanged rows.now start limit) chain.now }
    ensures within { result ≤ length chain.now }
    ensures parts { IsPartitionPoint (λ m. is_unchanged rows.now start limit m ≡ true) (λ m. is_unchanged rows.now start limit m ≡ false)
        chain.now result }
{
    chain.partition_point(|m| is_unchanged(rows, *m, start, limit))
}

/// The number of 64 bits at an address after the first k writes, its low byte first.
pub fn word_at(
    base: &Image,
    writes: &[Write],
    rows: &[Row],
    lines: &[Vec<u32>],
    k: u32,
    addr: u64,
) -> u64
    requires chained { IsChained writes.now rows.now (chain_of lines.now) }
    requires within { k ≤ length writes.now }
    requires aligned { addr % 8 ≡ 0 }
    requires in_ram { RAM_START ≤ addr }
    requires before_end { addr < RAM_END }
    ensures { result ≡ double_at base.now writes.now k addr }
{
    let newest = newest_at(lines, line_place(addr), k);
    u64::from_le_bytes([
        byte_after(base, writes, rows, newest, addr),
        byte_after(base, writes, rows, newest, addr + 1),
        byte_after(base, writes, rows, newest, addr + 2),
        byte_after(base, writes, rows, newest, addr + 3),
        byte_after(base, writes, rows, newest, addr + 4),
        byte_after(base, writes, rows, newest, addr + 5),
        byte_after(base, writes, rows, newest, addr + 6),
        byte_after(base, writes, rows, newest, addr + 7),
    ])
}

/// The byte at an address, where its line was last written by the write with this number.
fn byte_after(base: &Image, writes: &[Write], rows: &[Row], newest: u32, addr: u64) -> u8
    requires in_ram { RAM_START ≤ addr }
    requires before_end { addr < RAM_END }
    ensures { result ≡ option_map_or (λ w. slice_index w.bytes (addr % 64))
        (numbered writes.now (number_at rows.now newest (addr % 64))) (image_byte base.now addr) }
{
    let place = (addr % 64) as usize;
    match numbered_write(writes, number_at(rows, newest, place)) {
        Some(w) => w.bytes[place],
        None => base.byte(addr),
    }
}
