ghost use Rattle.std.specs.Prelude.{◌≡◌, [], IfOk};
ghost use Rattle.dt_runs.specs.RunView.{outcome_in};
ghost use Rattle.dt_pass.specs.Running.{AreJudgeable, AreRunsOf, IsRunOf};

use dt_record::Record;
use dt_runs::{HartRun, file_records_are_own, runs_come_to_an_end};
use dt_verdict::{Noted, Outcome};
use dt_versions::Moments;
use std::alloc::{AllocError, Global};

/// Judges all harts, hart 0 first. The notes are those of hart 0, then those of hart 1, and so on.
pub(crate) fn run_all(
    alloc: Global,
    m: &Moments,
    harts: u8,
    wide: bool,
    records: &[Record],
    notes: &mut Vec<Noted>,
) -> Result<Vec<Outcome>, AllocError>
    requires judgeable { AreJudgeable m.now records.now }
    requires no_notes { notes.old.items ≡ [] }
    ensures { IfOk result (λ outcomes. AreRunsOf m.now wide harts records.now outcomes.items notes.new.items) }
{
    let mut outcomes = Vec::new(alloc);
    for hart in 0..harts {
        let run = run_one(alloc, m, hart, wide, records)?;
        outcomes.push(run.outcome())?;
        let mut own = run.into_notes();
        notes.append(&mut own)?;
    }
    Ok(outcomes)
}

/// Judges the records of one hart in their order, up to the first that is not allowed.
fn run_one(
    alloc: Global,
    m: &Moments,
    number: u8,
    wide: bool,
    records: &[Record],
) -> Result<HartRun, AllocError>
    requires { AreJudgeable m.now records.now }
    ensures { IfOk result (λ run. IsRunOf m.now wide number records.now (outcome_in run) run.notes) }
{
    file_records_are_own();
    runs_come_to_an_end();
    let mut run = HartRun::new(alloc, number, wide);
    for event in records {
        if event.hart == number {
            run.judge(m, event)?;
            if run.has_failed() {
                return Ok(run);
            }
        }
    }
    Ok(run)
}
