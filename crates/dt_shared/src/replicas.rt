ghost use Rattle.std.specs.Prelude.{◌≡◌, [], ◌++◌, OnOk, OnErr};
ghost use mathlib.Core.List.{IsPrefix};
ghost use Rattle.dt_record.specs.Marks.{least_mark};
ghost use Rattle.dt_shared.specs.Entries.{notes_in};

use crate::entries::Entry;
use crate::progress::{HARTS, Progress, follow_all, least_of, unmarked};
use dt_record::Note;
use std::alloc::{AllocError, Global};
use std::marker::Model;

/// One worker's copy of the notes of a history, with each hart's mark.
#[derive(Drop)]
pub struct Replica {
    harts: u8,
    notes: Vec<Note>,
    progress: [Progress; HARTS],
}

impl Model for Replica {
    ghost use Rattle.dt_shared.specs.Replicas.{ReplicaState, Follows};

    ghost Value = { ReplicaState };

    ghost view = { λ r. record { harts = r.harts; notes = r.notes.items } };

    ghost invariant = { λ r. Follows r.progress r.notes.items };
}

fn add_notes(notes: &mut Vec<Note>, entries: &[Entry]) -> Result<(), AllocError>
    ensures ok { OnOk result (notes.new.items ≡ notes.old.items ++ notes_in entries.now) }
    ensures err { OnErr result (notes.new.items ≡ notes.old.items) }
{
    notes.reserve(entries.len())?;
    for entry in entries {
        notes.push_reserved(entry.note);
    }
    Ok(())
}

impl Replica {
    /// A replica for this many harts, which has no notes.
    pub fn new(alloc: Global, harts: u8) -> Replica
        ensures { result ≡ record { harts = harts; notes = [] } }
    {
        Replica {
            harts,
            notes: Vec::new(alloc),
            progress: unmarked(),
        }
    }

    /// The notes that were copied so far, in the order of the history.
    pub fn notes(&self) -> &[Note]
        ensures { result.now ≡ self.now.notes }
    {
        self.notes.as_slice()
    }

    /// The least mark of the harts that have not ended, and none once all have. A hart's mark is the
    /// stamp of its last `Mark`, or 0 where it has none.
    pub fn least_mark(&self) -> Option<u64>
        ensures { result ≡ least_mark self.now.harts self.now.notes }
    {
        least_of(&self.progress, self.harts)
    }

    /// Catches up with a history that begins with the notes that it has.
    pub(crate) fn catch_up(&mut self, entries: &[Entry]) -> Result<(), AllocError>
        requires { IsPrefix self.old.notes (notes_in entries.now) }
        ensures ok { OnOk result (self.new ≡ record self.old { notes = notes_in entries.now }) }
        ensures err { OnErr result (self.new ≡ self.old) }
    {
        let fresh = &entries[self.notes.len()..];
        add_notes(&mut self.notes, fresh)?;
        follow_all(&mut self.progress, fresh);
        Ok(())
    }
}
