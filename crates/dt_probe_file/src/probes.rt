ghost use Rattle.std.specs.Prelude.{◌≡◌, ◌≢◌, ◌≤◌, ◌⊎◌, ◌↔◌, ℕ, List, Option, None, [], IfOk, IsTrue, IsSome, IsNone};
ghost use Rattle.std.specs.Option.{ForSome};
ghost use Rattle.dt_record.specs.Streams.{Continues, TakesAnswer, Rose, IsFresh};
ghost use Rattle.dt_record.specs.declared.streams.Next.{Next};
ghost use Rattle.dt_probe_file.specs.Asking.{LeaveOpen, HadToRead};
ghost use Rattle.dt_probe_file.specs.Fronts.{IsSound};
ghost use Rattle.dt_probe_file.specs.OpenFronts.{HasOpenFront};
ghost use Rattle.dt_probe_file.specs.Origins.{HasOrigin};
ghost use Rattle.dt_probe_file.specs.Parts.{whole};
ghost use Rattle.dt_probe_file.specs.Progress.{ended_by, progress_of};
ghost use Rattle.dt_probe_file.specs.Told.{AreToldOf};
ghost use Rattle.dt_probe_file.specs.Left.{left_of};

use crate::holding::Held;
use crate::reading::Opened;
use crate::steps::{step_behind, step_header};
use dt_record::{Next, Probes};
use dt_source::Source;
use std::alloc::{AllocError, Global};

/// The stream of answers that the bytes of a probe file give, of version 1 or 2. It reads no further
/// than it has to, and takes all of its memory when it is made.
#[derive(Drop)]
pub struct FileProbes<S: Source> {
    source: S,
    held: Held,
    /// The file, once its header has come.
    opened: Option<Opened>,
    /// The answer that ended the stream.
    ended: Option<Next>,
    ghost sound: { ForSome opened IsSound },
}

/// The answer itself, if none comes after it.
fn last_answer(answer: &Next) -> Option<Next>
    ensures { result ≡ ended_by answer.now }
{
    match answer {
        Next::Header { .. } | Next::Event(_) => None,
        _ => Some(*answer),
    }
}

/// The memory of a stream that has no source yet.
#[derive(Debug, Drop)]
pub struct Room {
    held: Held,
    ghost empty: { held ≡ [] },
}

impl Room {
    /// Takes the memory of one stream. An `Err` is want of memory.
    pub fn new(alloc: Global) -> Result<Room, AllocError> {
        let held = Held::new(alloc)?;
        Ok(Room { held })
    }
}

impl<S: Source + Drop> FileProbes<S> {
    /// A stream over the whole of what the source has left.
    pub fn new(alloc: Global, source: S) -> Result<FileProbes<S>, AllocError>
        ensures fresh { IfOk result (λ probes. IsFresh (⟦<FileProbes<S> as Probes>⟧.progress probes)) }
        ensures told { IfOk result (λ probes. AreToldOf (S.left source) (⟦<FileProbes<S> as Probes>⟧.left probes)) }
        ensures faults { IfOk result (λ probes. ⟦<FileProbes<S> as Probes>⟧.faults probes ≡ S.faults source) }
        ensures origin { IfOk result (λ probes. ⟦<FileProbes<S> as Probes>⟧.has_origin probes (S.left source)) }
        ensures same_lent { IfOk result (λ probes. ⟦<FileProbes<S> as Probes>⟧.lent probes ≡ S.lent source) }
    {
        let room = Room::new(alloc)?;
        Ok(FileProbes::within(room, source))
    }

    /// A stream over the whole of what the source has left, in memory that is there: nothing can be
    /// refused once the source is given away.
    pub fn within(room: Room, source: S) -> FileProbes<S>
        ensures fresh { IsFresh (⟦<FileProbes<S> as Probes>⟧.progress result) }
        ensures told { AreToldOf (S.left source) (⟦<FileProbes<S> as Probes>⟧.left result) }
        ensures faults { ⟦<FileProbes<S> as Probes>⟧.faults result ≡ S.faults source }
        ensures origin { ⟦<FileProbes<S> as Probes>⟧.has_origin result (S.left source) }
        ensures same_lent { ⟦<FileProbes<S> as Probes>⟧.lent result ≡ S.lent source }
    {
        FileProbes {
            source,
            held: room.held,
            opened: None,
            ended: None,
        }
    }

    /// The source, of which more bytes may be read than were answered. Who lent it and then takes it
    /// back knows what became of it.
    pub fn into_source(self) -> S
        ensures faults { S.faults result ≡ ⟦<FileProbes<S> as Probes>⟧.faults self }
        ensures left_open { (bytes : Option (List ℕ)) → ⟦<FileProbes<S> as Probes>⟧.leaves_open self bytes
            → HasOpenFront bytes (S.left result) }
        ensures same_lent { S.lent result ≡ ⟦<FileProbes<S> as Probes>⟧.lent self }
    {
        self.source
    }
}

impl<S: Source> Probes for FileProbes<S> {
    ghost use Rattle.dt_probe_file.specs.FileStream.{held_in, opened_in, source_of};

    ghost progress = { λ p. progress_of p.opened p.ended };

    ghost left = { λ p. left_of p.opened p.ended (whole p.held (S.left p.source)) };

    ghost faults = { λ p. S.faults p.source };

    ghost has_origin = { λ p bytes. HasOrigin bytes p.opened p.ended p.held (S.left p.source) };

    ghost leaves_open = { λ p bytes. HasOpenFront bytes (S.left p.source) };

    ghost lent = { λ p. S.lent p.source };

    fn is_over(&self) -> bool {
        self.ended.is_some()
    }

    // Beside the trait's clauses: it takes no memory, and it reads only where what it holds leaves the
    // answer open.
    fn next(&mut self) -> Next
        requires { IsNone (⟦<FileProbes<S> as Probes>⟧.progress self.old).ended }
        ensures step { Continues (⟦<FileProbes<S> as Probes>⟧.progress self.old) result (⟦<FileProbes<S> as Probes>⟧.progress self.new) }
        ensures told { TakesAnswer (⟦<FileProbes<S> as Probes>⟧.left self.old) result (⟦<FileProbes<S> as Probes>⟧.left self.new) }
        ensures rising { ⟦<FileProbes<S> as Probes>⟧.faults self.old ≤ ⟦<FileProbes<S> as Probes>⟧.faults self.new }
        ensures fault { result ≡ Next.ReadFault
            → Rose (⟦<FileProbes<S> as Probes>⟧.faults self.old) (⟦<FileProbes<S> as Probes>⟧.faults self.new) }
        ensures quiet { result ≢ Next.ReadFault
            → ⟦<FileProbes<S> as Probes>⟧.faults self.new ≡ ⟦<FileProbes<S> as Probes>⟧.faults self.old }
        ensures needed { result ≡ Next.ReadFault → (bytes : Option (List ℕ))
            → ⟦<FileProbes<S> as Probes>⟧.has_origin self.old bytes → ⟦<FileProbes<S> as Probes>⟧.leaves_open self.new bytes }
        ensures had_to_read { result ≡ Next.ReadFault → HadToRead (opened_in self.old) (held_in self.old)
            (S.left (source_of self.old)) (S.left (source_of self.new)) }
        ensures same_origin { (bytes : Option (List ℕ))
            → ⟦<FileProbes<S> as Probes>⟧.has_origin self.old bytes → ⟦<FileProbes<S> as Probes>⟧.has_origin self.new bytes }
        ensures idle { (source_of self.new ≡ source_of self.old) ⊎ LeaveOpen (opened_in self.old) (held_in self.old) }
        ensures no_want { result ≢ Next.OutOfMemory }
        ensures same_lent { ⟦<FileProbes<S> as Probes>⟧.lent self.new ≡ ⟦<FileProbes<S> as Probes>⟧.lent self.old }
    {
        let step = match &self.opened {
            None => step_header(&mut self.source, &mut self.held),
            Some(opened) => step_behind(&mut self.source, &mut self.held, opened),
        };
        self.opened = step.opened;
        self.ended = last_answer(&step.answer);
        step.answer
    }
}
