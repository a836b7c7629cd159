ghost use Rattle.std.specs.Prelude.{◌≡◌, ◌≢◌, ◌+◌, ◌≤◌, ◌<◌, ℕ, None, Some, Err, if◌then◌else◌, length, IfOk, IfNone, OnOk};
ghost use Rattle.dt_permissions.specs.Events.{AreEvents, ArePerms, is_event_of};
ghost use Rattle.dt_permissions.specs.Files.{header_fault, event_of, event_start, may_stand, harts_in, event_count, first_events, is_end, fault_behind, perms_of};
ghost use Rattle.dt_permissions.specs.declared.perms.TheConstants.{EVENT_LIMIT};
ghost use Rattle.dt_record.specs.declared.limits.TheConstants.{HART_LIMIT};

use crate::events::PermEvent;
use crate::perms::{EVENT_LIMIT, Perms};
use crate::pieces::{byte_at, number_at, part};
use crate::reading::PermsRefusal;
use dt_record::{HART_LIMIT, LINE_SIZE, RAM_END, RAM_START};
use std::alloc::{AllocError, Global};

/// How many events a list has that is one too long.
const TOO_MANY: usize = EVENT_LIMIT as usize + 1;

/// How many bytes an event and an end have.
const EVENT_LEN: usize = 18;

const END_LEN: usize = 9;

/// The byte at the front of an end.
const END: u8 = 255;

/// The first and the last bytes of a header.
const MAGIC: [u8; 8] = *b"SMPDPERM";

const ZEROS: [u8; 7] = [0; 7];

/// The place of the first field of the header that isn't whole or breaks its bound.
#[tactic(auto, unfolding(crate::specs::Files::header_fault))]
fn header_fault(bytes: &[u8]) -> Option<u64>
    ensures fault { result ≡ header_fault bytes.now }
    ensures some_hart { IfNone result (1 ≤ harts_in bytes.now) }
    ensures few_harts { IfNone result (harts_in bytes.now ≤ HART_LIMIT) }
{
    let harts = byte_at(bytes, 8);
    if part(bytes, 0, 8) != MAGIC.as_slice() {
        Some(0)
    } else if harts < 1 || HART_LIMIT < harts {
        Some(8)
    } else if part(bytes, 9, 7) != ZEROS.as_slice() {
        Some(9)
    } else {
        None
    }
}

/// Where the event with this number stands.
fn event_start(number: usize) -> usize
    requires { number ≤ 4194305 }
    ensures { result ≡ event_start number }
{
    16 + EVENT_LEN * number
}

/// The event of these bytes, whatever bounds it breaks.
#[tactic(auto, unfolding(crate::specs::Files::event_of))]
fn event_of(bytes: &[u8]) -> PermEvent
    requires { length bytes.now ≡ 18 }
    ensures { result ≡ event_of bytes.now }
{
    PermEvent {
        op: bytes[0],
        hart: bytes[1],
        stamp: number_at(bytes, 2),
        line: number_at(bytes, 10),
    }
}

/// Whether an event is of one of the kinds, of one of so many harts, on a line of RAM.
fn is_event_of(harts: u8, event: &PermEvent) -> bool
    ensures { result ≡ is_event_of harts event.now }
{
    let known = 1 <= event.op && event.op <= 3;
    let in_ram = RAM_START <= event.line && event.line < RAM_END;
    known && event.hart < harts && event.line % LINE_SIZE == 0 && in_ram
}

/// The event of bytes that may stand in a file, after one with this stamp.
#[tactic(auto, unfolding(crate::specs::Files::may_stand))]
fn next_event(bytes: &[u8], harts: u8, least: u64) -> Option<PermEvent>
    ensures { result ≡ (if may_stand harts least bytes.now then Some (event_of bytes.now) else None) }
{
    if bytes.len() != EVENT_LEN {
        return None;
    }
    let event = event_of(bytes);
    if is_event_of(harts, &event) && least <= event.stamp {
        Some(event)
    } else {
        None
    }
}

/// The events that stand one after another behind the header, up to one too many.
fn read_events(alloc: Global, bytes: &[u8]) -> Result<Vec<PermEvent>, AllocError>
    ensures count { IfOk result (λ events. length events.items ≡ event_count bytes.now) }
    ensures events { IfOk result (λ events. events.items ≡ first_events bytes.now (event_count bytes.now)) }
    ensures lawful { IfOk result (λ events. AreEvents (harts_in bytes.now) 0 events.items) }
    ensures few { IfOk result (λ events. length events.items ≤ 4194305) }
{
    let harts = byte_at(bytes, 8);
    let mut events = Vec::new(alloc);
    let mut least = 0;
    while events.len() < TOO_MANY {
        let here = part(bytes, event_start(events.len()), EVENT_LEN);
        let Some(event) = next_event(here, harts, least) else {
            return Ok(events);
        };
        events.push(event)?;
        least = event.stamp;
    }
    Ok(events)
}

/// Whether these bytes are the end of so many events.
#[tactic(auto, unfolding(crate::specs::Files::is_end))]
fn is_end(count: usize, bytes: &[u8]) -> bool
    ensures { result ≡ is_end count bytes.now }
{
    bytes.len() == END_LEN && bytes[0] == END && number_at(bytes, 1) == count as u64
}

/// What breaks the form of a file behind so many events.
#[tactic(auto, unfolding(crate::specs::Files::fault_behind))]
fn fault_behind(bytes: &[u8], count: usize) -> Option<PermsRefusal>
    requires { count ≤ 4194305 }
    ensures fault { result ≡ fault_behind bytes.now count }
    ensures few { IfNone result (count ≤ EVENT_LIMIT) }
    ensures whole { IfNone result (length bytes.now ≡ event_start count + 9) }
    ensures no_fault { result ≢ Some PermsRefusal.ReadFault }
{
    let end = event_start(count);
    if count >= TOO_MANY {
        return Some(PermsRefusal::Limit);
    }
    if !is_end(count, part(bytes, end, END_LEN)) {
        return Some(PermsRefusal::Malformed { offset: end as u64 });
    }
    if bytes.len() != end + END_LEN {
        return Some(PermsRefusal::Malformed {
            offset: (end + END_LEN) as u64,
        });
    }
    None
}

/// What the bytes of a permission file say, or why they are none.
#[tactic(auto, unfolding(crate::specs::Files::perms_of))]
pub(crate) fn perms_of(alloc: Global, bytes: &[u8]) -> Result<Perms, PermsRefusal>
    ensures answer { result ≢ Err PermsRefusal.OutOfMemory → result ≡ perms_of bytes.now }
    ensures no_fault { result ≢ Err PermsRefusal.ReadFault }
    ensures lawful { IfOk result (λ perms. ArePerms perms.harts perms.events) }
    ensures short { OnOk result (length bytes.now < 75497506) }
{
    if let Some(offset) = header_fault(bytes) {
        return Err(PermsRefusal::Malformed { offset });
    }
    let events = read_events(alloc, bytes)?;
    match fault_behind(bytes, events.len()) {
        Some(refusal) => Err(refusal),
        None => Ok(Perms::of(byte_at(bytes, 8), events)),
    }
}
