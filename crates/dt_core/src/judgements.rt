ghost use Rattle.std.specs.Prelude.{◌≡◌, ℕ, IfOk, OnOk, OnErr};
ghost use Rattle.dt_core.specs.Judgements.{Meaning, ReadsNoLaterWrites};

use dt_record::{Record, Write};
use std::alloc::{AllocError, Global};

/// A judgement of the records of one hart, in their order.
pub trait Judgement: Drop {
    /// What it answers.
    ghost meaning: { Meaning Self };

    /// The judgement before the hart's first record.
    fn start(alloc: Global, hart: u8) -> Self
        ensures { result ≡ meaning.opening hart };

    /// Whether the next record is allowed, over these writes of all harts.
    fn judge(&mut self, writes: &[Write], event: &Record) -> Result<bool, AllocError>
        ensures answer { IfOk result (λ allowed. allowed ≡ meaning.allows self.old writes.now event.now) }
        ensures state { OnOk result (self.new ≡ meaning.after self.old writes.now event.now) }
        ensures unchanged { OnErr result (self.new ≡ self.old) };

    /// Writes of later cycles than the record's do not count.
    ghost reads_no_later_writes: { ReadsNoLaterWrites meaning };
}
