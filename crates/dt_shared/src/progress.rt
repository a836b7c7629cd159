//! How far each hart has come, by the notes.
ghost use Rattle.std.specs.Prelude.{◌≡◌, [], ◌∷◌, ◌++◌, List, length};
ghost use Rattle.dt_record.specs.declared.writes.Note.{Note};
ghost use Rattle.dt_record.specs.Marks.{least_mark};
ghost use Rattle.dt_shared.specs.Entries.{notes_in};
ghost use Rattle.dt_shared.specs.Replicas.{Follows, IsNamed, marked_at, followed, lower_of};

use crate::entries::Entry;
use dt_record::Note;

/// How many harts a note can name.
pub(crate) const HARTS: usize = 256;

/// How far a hart has come.
#[derive(Clone, Copy)]
pub(crate) enum Progress {
    /// Its mark.
    At(u64),
    Ended,
}

/// At the start, each hart has the mark 0.
pub(crate) fn unmarked() -> [Progress; HARTS]
    ensures { Follows result [] }
{
    [Progress::At(0); HARTS]
}

fn marked(progress: Progress, stamp: u64) -> Progress
    ensures { result ≡ marked_at progress stamp }
{
    match progress {
        Progress::At(_) => Progress::At(stamp),
        Progress::Ended => Progress::Ended,
    }
}

fn follow(progress: &mut [Progress], note: Note)
    requires { length progress.old ≡ 256 }
    ensures value { progress.new ≡ followed progress.old note }
    ensures named { IsNamed note }
{
    match note {
        Note::Mark { hart, stamp } => {
            let hart = usize::from(hart);
            progress[hart] = marked(progress[hart], stamp);
        }
        Note::End { hart } => progress[usize::from(hart)] = Progress::Ended,
        Note::Wrote(_) | Note::Cut { .. } | Note::Failure { .. } => {}
    }
}

/// Follows the notes of these entries.
pub(crate) fn follow_all(progress: &mut [Progress], entries: &[Entry])
    requires { length progress.old ≡ 256 }
    ensures { (notes : List Note) → Follows progress.old notes
        → Follows progress.new (notes ++ notes_in entries.now) }
{
    for entry in entries {
        follow(progress, entry.note);
    }
}

fn lower(least: Option<u64>, progress: Progress) -> Option<u64>
    ensures { result ≡ lower_of least progress }
{
    match (least, progress) {
        (_, Progress::Ended) => least,
        (Some(mark), Progress::At(stamp)) => Some(stamp.min(mark)),
        (None, Progress::At(stamp)) => Some(stamp),
    }
}

/// The least mark of the first harts, without those that have ended.
pub(crate) fn least_of(progress: &[Progress], harts: u8) -> Option<u64>
    requires { length progress.now ≡ 256 }
    ensures { (notes : List Note) → Follows progress.now notes → result ≡ least_mark harts notes }
{
    let mut least = None;
    for hart in 0..harts {
        least = lower(least, progress[usize::from(hart)]);
    }
    least
}
