ghost use Rattle.std.specs.Borrow.{GName};
ghost use Rattle.std.specs.Prelude.{◌≡◌, ◌≢◌, ℕ, ◌<◌, ◌≤◌, ◌↔◌, List, [], length, Option, IsTrue, IsSome, IsNone};
ghost use Rattle.dt_record.specs.declared.streams.Next.{Next};
ghost use Rattle.dt_record.specs.Streams.{Progress, Continues, TakesAnswer, Rose};
ghost use Rattle.dt_record.specs.Filling.{ContinuesBy, TakesAnswers, block_answers};

use crate::blocks::Block;
use crate::records::Record;
use crate::writes::What;

/// One answer of a stream of probe records. A stream answers a `Header`, then an `Event` for each
/// record, then `End`; or it stops with one of the others in place of any of these.
#[derive(Clone, Copy, Debug, PartialEq, Eq)]
pub enum Next {
    /// The number of harts, from 1 to 8, and whether satp may hold the mode of Sv48.
    Header { harts: u8, wide: bool },
    /// The next record, in the order of the file.
    Event(Record),
    /// All records have come: so many.
    End { count: u64 },
    /// The bytes are no probe file: the offset of the first header field or record that is wrong.
    Malformed { offset: u64 },
    /// There are too many records or writes: the number, from 1, of the first too many.
    Limit { what: What, number: u64 },
    /// The source of the records failed.
    ReadFault,
    /// The stream was refused memory.
    OutOfMemory,
}

/// Why a call that fills a block gave no more records.
#[derive(Clone, Copy, Debug, PartialEq, Eq)]
pub enum Stop {
    /// The block is full: more may come into another one.
    Full,
    /// All records have come: so many.
    End { count: u64 },
    /// The bytes are no probe file: the offset of the first record that is wrong.
    Malformed { offset: u64 },
    /// There are too many records or writes: the number, from 1, of the first too many.
    Limit { what: What, number: u64 },
    /// The source of the records failed.
    ReadFault,
    /// The stream was refused memory.
    OutOfMemory,
}

/// A stream of probe records, as of a file or of a running device.
pub trait Probes {
    /// What the answers so far have told.
    ghost progress: { Self → Progress };

    /// The answers that are left, where the stream tells them.
    ghost left: { Self → Option (List Next) };

    /// How often the source has failed.
    ghost faults: { Self → ℕ };

    // The references that the stream reads its sources through, where these are lent. A stream keeps
    // them, so who lent a source knows what became of it once the stream is gone.
    ghost lent: { Self → List GName } = { λ _. [] };

    // That these are the bytes that the stream is a stream of, in which it has come as far as its
    // answers say: those that its source had at first, or None where it does not tell them.
    ghost has_origin: { Self → Option (List ℕ) → Type 0 } = { λ _ _. Unit {0} };

    // What is known of a stream of these bytes in which a read failed: that those which were read by
    // then leave the answer open.
    ghost leaves_open: { Self → Option (List ℕ) → Type 0 } = { λ _ _. Unit {0} };

    fn is_over(&self) -> bool
        ensures { IsTrue result ↔ IsSome (progress self.now).ended };

    /// The next answer.
    fn next(&mut self) -> Next
        requires { IsNone (progress self.old).ended }
        ensures step { Continues (progress self.old) result (progress self.new) }
        ensures told { TakesAnswer (left self.old) result (left self.new) }
        ensures rising { faults self.old ≤ faults self.new }
        ensures fault { result ≡ Next.ReadFault → Rose (faults self.old) (faults self.new) }
        ensures quiet { result ≢ Next.ReadFault → faults self.new ≡ faults self.old }
        ensures needed { result ≡ Next.ReadFault → (bytes : Option (List ℕ)) → has_origin self.old bytes → leaves_open self.new bytes }
        ensures same_origin { (bytes : Option (List ℕ)) → has_origin self.old bytes → has_origin self.new bytes }
        ensures same_lent { lent self.new ≡ lent self.old };

    /// The next answers behind the header, as so many calls of `next` give them: the records go into
    /// an empty block, and the answer that ends the stream is the stop.
    fn fill(&mut self, block: &mut Block) -> Stop
        requires goes_on { IsNone (progress self.old).ended }
        requires headed { IsSome (progress self.old).harts }
        requires empty { block.old.records ≡ [] }
        ensures step { ContinuesBy (progress self.old) (block_answers block.new.records result) (progress self.new) }
        ensures told { TakesAnswers (left self.old) (block_answers block.new.records result) (left self.new) }
        ensures some { result ≡ Stop.Full → 0 < block.old.room → 0 < length block.new.records }
        ensures rising { faults self.old ≤ faults self.new }
        ensures fault { result ≡ Stop.ReadFault → Rose (faults self.old) (faults self.new) }
        ensures quiet { result ≢ Stop.ReadFault → faults self.new ≡ faults self.old }
        ensures needed { result ≡ Stop.ReadFault → (bytes : Option (List ℕ)) → has_origin self.old bytes → leaves_open self.new bytes }
        ensures same_origin { (bytes : Option (List ℕ)) → has_origin self.old bytes → has_origin self.new bytes }
        ensures same_lent { lent self.new ≡ lent self.old }
    {
        'filling: while block.has_room() {
            match self.next() {
                Next::Event(event) => block.push(&event),
                Next::End { count } => return Stop::End { count },
                Next::Malformed { offset } => return Stop::Malformed { offset },
                Next::Limit { what, number } => return Stop::Limit { what, number },
                Next::ReadFault => return Stop::ReadFault,
                Next::OutOfMemory => return Stop::OutOfMemory,
                Next::Header { .. } => unreachable!(),
            }
        }
        Stop::Full
    }
}
