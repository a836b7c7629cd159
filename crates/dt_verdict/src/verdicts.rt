ghost use Rattle.std.specs.Prelude.{◌≡◌};
ghost use Rattle.dt_verdict.specs.Verdict.{is_sooner, joined_verdict, verdict_of, IsVerdict};

use dt_record::{Key, Reason};

/// A record that no rule allows, and why.
#[derive(Clone, Copy, Debug, PartialEq, Eq)]
pub struct Failure {
    pub key: Key,
    /// The first check that the record fails.
    pub reason: Reason,
    /// What that check expected, and what it found: docs/JUDGEMENT.md says for each reason what
    /// the two are.
    pub expected: u64,
    pub found: u64,
}

/// What is said of a probe file as a whole.
#[derive(Clone, Copy, Debug, PartialEq, Eq)]
pub enum Verdict {
    /// Each record is allowed.
    Pass,
    /// This record is the first, in the order of keys, that is not allowed.
    Fail(Failure),
}

/// How far one hart came.
#[derive(Clone, Copy, Debug, PartialEq, Eq)]
pub struct Outcome {
    pub hart: u8,
    /// The hart's first record that is not allowed, where there is one.
    pub failure: Option<Failure>,
}

/// Whether a failure has a lower key than that of the verdict, where the verdict has one.
fn comes_sooner(failure: &Failure, verdict: &Verdict) -> bool
    ensures { result ≡ is_sooner failure.now verdict.now }
{
    match verdict {
        Verdict::Pass => true,
        Verdict::Fail(first) => failure.key < first.key,
    }
}

/// The verdict of some harts and one more.
fn joined(verdict: Verdict, outcome: &Outcome) -> Verdict
    ensures { result ≡ joined_verdict verdict outcome.now.failure }
{
    match outcome.failure {
        Some(failure) if comes_sooner(&failure, &verdict) => Verdict::Fail(failure),
        _ => verdict,
    }
}

/// The verdict of harts: the failure with the least key. Records of different harts have different
/// keys; where two failures share one, the verdict is at the first in the list.
pub fn least(outcomes: &[Outcome]) -> Verdict
    ensures value { result ≡ verdict_of outcomes.now }
    ensures least { IsVerdict outcomes.now result }
{
    let mut verdict = Verdict::Pass;
    for outcome in outcomes {
        verdict = joined(verdict, outcome);
    }
    verdict
}
