ghost use Rattle.std.specs.Prelude.{◌≡◌};

use dt_record::Note;
use std::marker::Model;

/// Notes, as a contract sees them: a list.
#[derive(Debug, Drop)]
pub struct Notes {
    notes: Vec<Note>,
}

impl Model for Notes {
    ghost use Rattle.std.specs.Prelude.{List};
    ghost use Rattle.dt_record.specs.declared.writes.Note.{Note};

    ghost Value = { List Note };

    ghost view = { λ n. n.notes.items };
}

impl Notes {
    /// These notes, in this order.
    pub fn of(notes: Vec<Note>) -> Notes
        ensures { result ≡ notes.items }
    {
        Notes { notes }
    }

    /// The notes in their order.
    pub fn as_slice(&self) -> &[Note]
        ensures { result.now ≡ self.now }
    {
        &self.notes
    }
}

/// One step of a run. The worker of a hart is the one whose number the hart's number leaves when it
/// is divided by the number of workers.
#[derive(Debug, Drop)]
pub enum CoreStep {
    /// The file's next record is queued for its hart. Once there is none, all harts are told that
    /// no more come.
    Feed,
    /// The first record of the hart's queue is taken.
    Take { hart: u8 },
    /// The worker appends what there is to tell of its harts: the writes of taken records, then a
    /// mark or the end. `extra` holds cuts and failures that are true of its judged records.
    Announce { worker: u8, extra: Notes },
    /// The worker sees the history as it stands.
    Look { worker: u8 },
    /// The hart's next taken record is judged, where the history that its worker has seen allows it.
    Judge { hart: u8 },
}
