ghost use Rattle.std.specs.Prelude.{◌≡◌, OnOk, IfOk};
ghost use Rattle.dt_tallies.specs.Counting.{is_below};
ghost use Rattle.dt_tallies.specs.Naming.{is_named, named_notes, notes_by_key};

use crate::counting::precedes;
use dt_record::{Key, Letters, Sources};
use dt_verdict::{Noted, NotedRecords};
use dt_writes::stable_sorts_are_one;
use std::alloc::AllocError;

/// Whether a report names an allowed record with these letters and sources: one with a letter, or
/// one that read RAM.
pub fn is_named(letters: &Letters, sources: &Sources) -> bool
    ensures { result ≡ is_named letters.now sources.now }
{
    letters.has_any() || sources.count != 0
}

/// The notes of all harts, in any order, as a report has them: by key, and with a limit, as the key
/// of the failing record, only those with a key below it. After want of memory the notes are gone.
pub fn named(mut notes: Vec<Noted>, limit: Option<Key>) -> Result<NotedRecords, AllocError>
    ensures { IfOk result (λ records. records ≡ named_notes limit notes.items) }
{
    notes.retain(|note| precedes(note.key, limit));
    sort(&mut notes)?;
    Ok(NotedRecords::of(notes))
}

fn sort(notes: &mut Vec<Noted>) -> Result<(), AllocError>
    ensures { OnOk result (notes.new.items ≡ notes_by_key notes.old.items) }
{
    stable_sorts_are_one::<Noted>();
    notes.sort_by_key(|note| note.key)
}
