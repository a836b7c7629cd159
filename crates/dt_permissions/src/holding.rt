ghost use Rattle.std.specs.Prelude.{◌≡◌, ◌≤◌, ◌-◌, length, take};
ghost use Rattle.dt_permissions.specs.Holding.{given, is_of, held_by};

use crate::events::{Held, PermEvent};
use crate::perms::Perms;

/// What an event gives its hart.
fn given(event: &PermEvent) -> Held
    ensures { result ≡ given event.now }
{
    match event.op {
        1 => Held::Read,
        2 => Held::Write,
        _ => Held::Nothing,
    }
}

fn is_of(event: &PermEvent, hart: u8, line: u64) -> bool
    ensures { result ≡ is_of hart line event.now }
{
    event.hart == hart && event.line == line
}

/// What a hart holds of a line after events.
fn held_by(events: &[PermEvent], hart: u8, line: u64) -> Held
    ensures { result ≡ held_by events.now hart line }
{
    for place in (0..events.len()).rev() {
        if is_of(&events[place], hart, line) {
            return given(&events[place]);
        }
    }
    Held::Nothing
}

/// What a hart holds of a line after the first `j` events.
pub fn held_after(perms: &Perms, j: u32, hart: u8, line: u64) -> Held
    requires { j ≤ length perms.now.events }
    ensures { result ≡ held_by (take j perms.now.events) hart line }
{
    held_by(&perms.events()[..j as usize], hart, line)
}
