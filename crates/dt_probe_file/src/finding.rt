ghost use Rattle.std.specs.Prelude.{◌≡◌, ◌≢◌, ◌≤◌, ◌⊎◌, None, Some};
ghost use Rattle.dt_source.specs.Faults.{Rose};
ghost use Rattle.dt_probe_file.specs.Asking.{LeaveOpen, HadToRead};
ghost use Rattle.dt_probe_file.specs.Fronts.{IsSound, reading_of};
ghost use Rattle.dt_probe_file.specs.Found.{IsFound, IsHeard};
ghost use Rattle.dt_probe_file.specs.Parts.{ReadsOn, whole};

use crate::fronts::{Front, front_of};
use crate::headers::{Heading, heading_of};
use crate::holding::Held;
use crate::reading::Opened;
use dt_record::{Record, Version};
use dt_source::{Failed, Source};

/// What reading on to a whole header came to.
#[derive(Clone, Copy, Debug)]
pub(crate) enum Heard {
    Whole {
        version: Version,
        harts: u8,
        wide: bool,
    },
    /// There is no header: the place of its first field that isn't whole or is wrong.
    Wrong {
        field: usize,
    },
    /// A read failed.
    Failed,
}

/// What reading on to a whole record or end came to.
#[derive(Clone, Copy, Debug)]
pub(crate) enum Found {
    /// A record that may come next, and how many of the held bytes are its spelling.
    Event { event: Record, len: usize },
    /// The end of so many records as came.
    End,
    /// Neither of both comes.
    Wrong,
    /// A read failed.
    Failed,
}

/// Reads until a whole header is held, no further than it has to.
pub(crate) fn hear<S: Source>(source: &mut S, held: &mut Held) -> Heard
    ensures whole { whole held.new (S.left source.new) ≡ whole held.old (S.left source.old) }
    ensures reads { ReadsOn held.old (S.left source.old) held.new (S.left source.new) }
    ensures heard { IsHeard held.new (S.left source.new) result }
    ensures fault { result ≡ Heard.Failed → Rose (S.faults source.old) (S.faults source.new) }
    ensures quiet { result ≢ Heard.Failed → S.faults source.new ≡ S.faults source.old }
    ensures needed { result ≡ Heard.Failed → HadToRead None held.old (S.left source.old) (S.left source.new) }
    ensures idle { ((source.new ≡ source.old) × (held.new ≡ held.old)) ⊎ LeaveOpen None held.old }
    ensures never_falls { S.faults source.old ≤ S.faults source.new }
    ensures same_lent { S.lent source.new ≡ S.lent source.old }
{
    loop {
        let begun = match heading_of(held.bytes()) {
            Heading::Whole {
                version,
                harts,
                wide,
            } => {
                return Heard::Whole {
                    version,
                    harts,
                    wide,
                };
            }
            Heading::Wrong { field } => return Heard::Wrong { field },
            Heading::Begun { field } => field,
        };
        match held.read(source) {
            Ok(true) => {}
            Ok(false) => return Heard::Wrong { field: begun },
            Err(Failed) => return Heard::Failed,
        }
    }
}

/// Reads until a whole record or end is held, no further than it has to.
pub(crate) fn find<S: Source>(source: &mut S, held: &mut Held, opened: &Opened) -> Found
    requires { IsSound opened.now }
    ensures whole { whole held.new (S.left source.new) ≡ whole held.old (S.left source.old) }
    ensures reads { ReadsOn held.old (S.left source.old) held.new (S.left source.new) }
    ensures found { IsFound (reading_of opened.now) held.new (S.left source.new) result }
    ensures fault { result ≡ Found.Failed → Rose (S.faults source.old) (S.faults source.new) }
    ensures quiet { result ≢ Found.Failed → S.faults source.new ≡ S.faults source.old }
    ensures needed { result ≡ Found.Failed → HadToRead (Some opened.now) held.old (S.left source.old) (S.left source.new) }
    ensures idle { ((source.new ≡ source.old) × (held.new ≡ held.old)) ⊎ LeaveOpen (Some opened.now) held.old }
    ensures never_falls { S.faults source.old ≤ S.faults source.new }
    ensures same_lent { S.lent source.new ≡ S.lent source.old }
{
    loop {
        match front_of(opened, held.bytes()) {
            Front::Event { event, len } => return Found::Event { event, len },
            Front::End => return Found::End,
            Front::Wrong => return Found::Wrong,
            Front::Begun => {}
        }
        match held.read(source) {
            Ok(true) => {}
            Ok(false) => return Found::Wrong,
            Err(Failed) => return Found::Failed,
        }
    }
}
