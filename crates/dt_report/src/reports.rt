ghost use Rattle.std.specs.Prelude.{◌≡◌, ◌++◌, IfOk};
ghost use Rattle.dt_report.specs.Report.{report_text};

use crate::lines::{put_harts, put_rules, put_totals, put_verdict};
use crate::notes::put_notes;
use crate::texts::Text;
use dt_verdict::Checked;
use std::alloc::{AllocError, Global};

/// The report, with a line for each record that the notes name where these are wanted.
pub fn report(alloc: Global, c: &Checked, notes: bool) -> Result<Text, AllocError>
    ensures { IfOk result (λ text. text ≡ report_text c.now notes) }
{
    report_behind(Text::of(Vec::new(alloc)), c, notes)
}

/// The report behind a text, with a line for each record that the notes name where these are
/// wanted.
pub fn report_behind(before: Text, c: &Checked, notes: bool) -> Result<Text, AllocError>
    ensures { IfOk result (λ text. text ≡ before ++ report_text c.now notes) }
{
    let mut out = before.into_vec();
    put_verdict(&mut out, &c.verdict)?;
    put_totals(&mut out, c.harts, c.tallies.harts.items())?;
    put_harts(&mut out, c.tallies.harts.items())?;
    put_rules(&mut out, c.tallies.notes.items())?;
    if notes {
        put_notes(&mut out, c.tallies.notes.items())?;
    }
    Ok(Text::of(out))
}
