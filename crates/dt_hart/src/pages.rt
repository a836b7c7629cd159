ghost use Rattle.std.specs.Prelude.{◌≡◌, ◌≤◌, ◌++◌, length, map, IfOk, OnOk};
ghost use Rattle.dt_hart.specs.HartData.{is_later, kept_value, kept_values, number_within, own_number, page_pair};
ghost use Rattle.dt_hart.specs.Replaying.{numbered_key};

use dt_record::{Key, PageMark, Pages, Record, key_of};
use std::alloc::{AllocError, Global};

/// The number of a fence, where it is that of one of so many records, and else 0.
pub fn number_within(count: u32, fence: Option<Key>) -> u32
    ensures value { result ≡ number_within count fence }
    ensures few { result ≤ count }
{
    match fence {
        Some(key) if key.seq < count => key.seq + 1,
        _ => 0,
    }
}

fn is_later(key: Key, fence: Option<Key>) -> bool
    ensures { result ≡ is_later key fence }
{
    match fence {
        Some(fence) => key > fence,
        None => true,
    }
}

fn own_number(count: u32, all: Option<Key>, key: Key) -> Option<u32>
    ensures { result ≡ own_number count all key }
{
    let number = number_within(count, Some(key));
    if is_later(key, all) && number_within(count, all) < number {
        Some(number)
    } else {
        None
    }
}

/// The marks of the pages whose own fence came after the last one of all pages.
pub fn marks_of(
    alloc: Global,
    count: u32,
    all: Option<Key>,
    pages: &[(u64, Key)],
) -> Result<Pages, AllocError>
    ensures { IfOk result (λ marks. map page_pair marks ≡ kept_values (own_number count all) pages.now) }
{
    let mut marks = Vec::new(alloc);
    for (page, key) in pages {
        push_mark(&mut marks, *page, own_number(count, all, *key))?;
    }
    Ok(Pages::of(marks))
}

fn push_mark(marks: &mut Vec<PageMark>, page: u64, number: Option<u32>) -> Result<(), AllocError>
    ensures { OnOk result (map page_pair marks.new.items ≡ map page_pair marks.old.items ++ kept_value page number) }
{
    if let Some(seq) = number {
        marks.push(PageMark { page, seq })?;
    }
    Ok(())
}

/// The key of the record with this number, counted from 1.
pub fn numbered_key(before: &[Record], number: u32) -> Option<Key>
    ensures { result ≡ numbered_key before.now number }
{
    let place = number.checked_sub(1)?;
    match before.get(place as usize) {
        Some(event) => Some(key_of(event, place)),
        None => None,
    }
}

/// The marked pages, each with the key of its last fence.
pub fn own_fences(
    alloc: Global,
    before: &[Record],
    marks: &[PageMark],
) -> Result<Vec<(u64, Key)>, AllocError>
    ensures { IfOk result (λ pages. pages.items ≡ kept_values (numbered_key before.now) (map page_pair marks.now)) }
{
    let mut pages = Vec::new(alloc);
    for mark in marks {
        push_page(&mut pages, mark.page, numbered_key(before, mark.seq))?;
    }
    Ok(pages)
}

fn push_page(pages: &mut Vec<(u64, Key)>, page: u64, fence: Option<Key>) -> Result<(), AllocError>
    ensures { OnOk result (pages.new.items ≡ pages.old.items ++ kept_value page fence) }
{
    if let Some(key) = fence {
        pages.push((page, key))?;
    }
    Ok(())
}
