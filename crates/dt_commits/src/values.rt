ghost use Rattle.std.specs.Prelude.{◌≡◌, ◌==◌, true, nat_le, bit_and, Ok};
ghost use Rattle.dt_record.specs.declared.reasons.Reason.TheVariants as reason;
ghost use Rattle.dt_csr.specs.Access.{floor_of};
ghost use Rattle.dt_rules.specs.Checks.{misfit, check};
ghost use Rattle.dt_commits.specs.Values.{value_check, shown_check, commit_value_check};

use dt_csr::cause::ILLEGAL_INSTRUCTION;
use dt_csr::{CsrRead, Csrs, read};
use dt_rules::{Misfit, NO_NUMBER, Reason, counter, pending};
use dt_step::{Arch, Planned};

/// Whether a commit has the value that its plan writes to rd, or 0 where it writes none or rd is x0.
/// Gives whether the value was taken over from the record: that of a counter, mip or sip.
pub fn commit_value(a: &Arch, plan: Planned, found: u64) -> Result<bool, Misfit>
    ensures { result ≡ commit_value_check a.now plan found }
{
    match plan {
        Planned::Done { rd, value, .. } => is_value(if rd == 0 { 0 } else { value }, found),
        Planned::Csr {
            number,
            reads,
            rd,
            ..
        } if reads && rd != 0 => {
            let shown = read(&a.csrs, a.mode, a.hart, number);
            is_shown(&a.csrs, shown, found)
        }
        _ => is_value(0, found),
    }
}

/// Whether a read of a register of control and status may give this value.
fn is_shown(c: &Csrs, shown: CsrRead, found: u64) -> Result<bool, Misfit>
    ensures { result ≡ shown_check c.now shown found }
{
    match shown {
        CsrRead::Value(value) => is_value(value, found),
        CsrRead::Counter(number) => is_counted(c.floor(number), found),
        CsrRead::Pending(mask) => is_pending(mask, found),
        CsrRead::Illegal => Err(Misfit {
            reason: Reason::Raises,
            expected: ILLEGAL_INSTRUCTION,
            found: NO_NUMBER,
        }),
    }
}

fn is_value(due: u64, found: u64) -> Result<bool, Misfit>
    ensures { result ≡ value_check due found }
{
    if due == found {
        Ok(false)
    } else {
        Err(Misfit {
            reason: Reason::Value,
            expected: due,
            found,
        })
    }
}

fn is_counted(floor: u64, found: u64) -> Result<bool, Misfit>
    ensures { result ≡ check (nat_le floor found) (misfit reason.Counter floor found) (Ok true) }
{
    if counter(floor, found) {
        Ok(true)
    } else {
        Err(Misfit {
            reason: Reason::Counter,
            expected: floor,
            found,
        })
    }
}

fn is_pending(mask: u64, found: u64) -> Result<bool, Misfit>
    ensures { result ≡ check (bit_and found mask == found) (misfit reason.Adopt (bit_and found mask) found) (Ok true) }
{
    if pending(mask, found) {
        Ok(true)
    } else {
        Err(Misfit {
            reason: Reason::Adopt,
            expected: found & mask,
            found,
        })
    }
}
