use crate::tallies::Tallies;
use crate::verdicts::Verdict;
use dt_record::What;
use std::alloc::AllocError;

/// What a report is made of.
#[derive(Debug, Drop)]
pub struct Checked {
    pub verdict: Verdict,
    /// The number of harts that the file's header gives.
    pub harts: u8,
    pub tallies: Tallies,
}

/// Why a probe file has no verdict: the answer that ended its stream of records, or want of memory.
#[derive(Clone, Copy, Debug, PartialEq, Eq)]
pub enum Refusal {
    /// The file's bytes break the grammar from this place on.
    Malformed { offset: u64 },
    /// There are more records or writes than the limit: `number` is the first too many, from 1.
    Limit { what: What, number: u64 },
    /// A read of the file failed.
    ReadFault,
    /// Memory was refused, to the stream or to the check.
    OutOfMemory,
}

impl From<AllocError> for Refusal {
    ghost use Rattle.std.specs.Prelude.{◌≡◌};
    ghost use Rattle.dt_verdict.specs.declared.answers.Refusal.TheVariants.{OutOfMemory};

    ghost from_gives = { λ _ refusal. refusal ≡ OutOfMemory };

    fn from(_: AllocError) -> Refusal {
        Refusal::OutOfMemory
    }
}
