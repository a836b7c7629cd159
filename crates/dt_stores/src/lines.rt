ghost use Rattle.std.specs.Prelude.{◌≡◌, ◌+◌, ◌-◌, ◌/◌, ◌≤◌, ◌<◌, ◌++◌, ◌∷◌, [], length, drop, vec_len, vec_capacity, IsTrue, OnOk};
ghost use Rattle.std.specs.Option.{option_copied};
ghost use Rattle.dt_record.specs.declared.limits.TheConstants.{LINE_SIZE, RAM_END, RAM_START};
ghost use Rattle.dt_record.specs.Lawful.{is_ram_line};
ghost use Rattle.dt_record.specs.Memory.{line_of};
ghost use Rattle.dt_stores.specs.Lines.{line_place, line_in, places_in, taken_in, HasRoom, KeepsPlaces, KeepsTaken, SetsPlaces, SetsTaken};
ghost use Rattle.dt_stores.specs.Past.{without_last};

use dt_record::{RAM_END, RAM_START};
use std::alloc::AllocError;

/// The stores on one line of RAM.
#[derive(Debug, Drop)]
pub struct Line {
    /// Their places among all stores, the oldest first.
    pub places: Vec<u32>,
    /// How many of the first of them are drained.
    pub taken: usize,
}

/// The line that holds an address.
pub fn line_of(addr: u64) -> u64
    ensures { result ≡ line_of addr }
{
    addr - addr % 64
}

fn is_ram_line(line: u64) -> bool
    ensures { result ≡ is_ram_line line }
{
    line % 64 == 0 && RAM_START <= line && line < RAM_END
}

fn place_of(line: u64) -> usize
    requires { IsTrue (is_ram_line line) }
    ensures { result ≡ line_place line }
{
    ((line - RAM_START) / 64) as usize
}

fn line_at(lines: &[Line], line: u64) -> Option<&Line>
    ensures { option_copied result ≡ line_in lines.now line }
{
    if is_ram_line(line) {
        lines.get(place_of(line))
    } else {
        None
    }
}

/// The places of the stores on a line, the oldest first.
pub fn places_at(lines: &[Line], line: u64) -> &[u32]
    ensures { result.now ≡ places_in lines.now line }
{
    match line_at(lines, line) {
        Some(l) => l.places.as_slice(),
        None => &[],
    }
}

/// How many of the first stores on a line are drained.
pub fn taken_at(lines: &[Line], line: u64) -> usize
    ensures { result ≡ taken_in lines.now line }
{
    match line_at(lines, line) {
        Some(l) => l.taken,
        None => 0,
    }
}

/// The places of the stores that wait on a line, the oldest first.
pub fn waiting_at(lines: &[Line], line: u64) -> &[u32]
    requires { taken_in lines.now line ≤ length (places_in lines.now line) }
    ensures { result.now ≡ drop (taken_in lines.now line) (places_in lines.now line) }
{
    &places_at(lines, line)[taken_at(lines, line)..]
}

/// Makes room for one more store on a line.
pub fn make_room(lines: &mut Vec<Line>, line: u64) -> Result<(), AllocError>
    requires { IsTrue (is_ram_line line) }
    ensures places { KeepsPlaces lines.old.items lines.new.items }
    ensures taken { KeepsTaken lines.old.items lines.new.items }
    ensures room { OnOk result (HasRoom lines.new.items line) }
{
    let place = place_of(line);
    grow(lines, place)?;
    let l = &mut lines[place];
    l.places.reserve(1)?;
    Ok(())
}

/// Gives each line up to a place its list of stores.
fn grow(lines: &mut Vec<Line>, place: usize) -> Result<(), AllocError>
    requires { place < (RAM_END - RAM_START) / LINE_SIZE }
    ensures places { KeepsPlaces lines.old.items lines.new.items }
    ensures taken { KeepsTaken lines.old.items lines.new.items }
    ensures there { OnOk result (place < vec_len lines.new) }
{
    while lines.len() <= place {
        let places = Vec::new(*lines.allocator());
        lines.push(Line { places, taken: 0 })?;
    }
    Ok(())
}

/// Adds a store on a line, at a place behind those of all others.
pub fn add_place(lines: &mut [Line], line: u64, place: u32)
    requires { HasRoom lines.old line }
    ensures places { SetsPlaces lines.old lines.new line (places_in lines.old line ++ place ∷ []) }
    ensures taken { KeepsTaken lines.old lines.new }
{
    if is_ram_line(line) && place_of(line) < lines.len() {
        let l = &mut lines[place_of(line)];
        push_into_room(&mut l.places, place);
    }
}

fn push_into_room(places: &mut Vec<u32>, place: u32)
    requires { vec_len places.old < vec_capacity places.old }
    ensures { places.new.items ≡ places.old.items ++ place ∷ [] }
{
    let _ = places.push(place);
}

/// So many more of the stores on a line are drained.
pub fn add_taken(lines: &mut [Line], line: u64, count: u16)
    requires { taken_in lines.old line + count ≤ length (places_in lines.old line) }
    ensures places { KeepsPlaces lines.old lines.new }
    ensures taken { SetsTaken lines.old lines.new line (taken_in lines.old line + count) }
{
    if is_ram_line(line) && place_of(line) < lines.len() {
        let l = &mut lines[place_of(line)];
        l.taken += usize::from(count);
    }
}

/// Takes away the youngest store on a line.
pub fn drop_place(lines: &mut [Line], line: u64)
    ensures places { SetsPlaces lines.old lines.new line (without_last (places_in lines.old line)) }
    ensures taken { KeepsTaken lines.old lines.new }
{
    if is_ram_line(line) && place_of(line) < lines.len() {
        let l = &mut lines[place_of(line)];
        let _ = l.places.pop();
    }
}

/// So many fewer of the stores on a line are drained.
pub fn drop_taken(lines: &mut [Line], line: u64, count: u16)
    ensures places { KeepsPlaces lines.old lines.new }
    ensures taken { SetsTaken lines.old lines.new line (taken_in lines.old line - count) }
{
    if is_ram_line(line) && place_of(line) < lines.len() {
        let l = &mut lines[place_of(line)];
        l.taken = l.taken.saturating_sub(usize::from(count));
    }
}
