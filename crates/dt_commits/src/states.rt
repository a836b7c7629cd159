ghost use Rattle.std.specs.Prelude.{◌≡◌, ◌==◌, length, Ok};
ghost use Rattle.dt_record.specs.declared.reasons.Reason.TheVariants.{State};
ghost use Rattle.dt_rules.specs.Checks.{misfit, check, first_difference};
ghost use Rattle.dt_commits.specs.States.{registers_check, csrs_check};

use dt_rules::{Misfit, Reason};
use dt_step::Arch;

/// Whether a hart has this pc and these values of x1 to x31. Expected and found are the first two
/// numbers that differ.
pub fn shows_registers(a: &Arch, pc: u64, x: &[u64; 31]) -> Result<(), Misfit>
    ensures { result ≡ registers_check a.now pc x.now }
{
    let (_, from_x1) = a.x.split_at(1);
    are_shown(a.pc, from_x1, pc, x)
}

/// Whether a hart is in this mode and its registers of control and status have these values: the 17
/// that are kept, in the order of a record of them. Expected and found are the first two that differ.
pub fn shows_csrs(a: &Arch, mode: u8, v: &[u64; 17]) -> Result<(), Misfit>
    ensures { result ≡ csrs_check a.now mode v.now }
{
    are_shown(u64::from(a.mode), &a.csrs.values(), u64::from(mode), v)
}

/// Whether a first number and those after it are the ones that are due.
fn are_shown(due: u64, dues: &[u64], found: u64, more: &[u64]) -> Result<(), Misfit>
    requires { length dues.now ≡ length more.now }
    ensures { result ≡ check (due == found) (misfit State due found) (first_difference State dues.now more.now) }
{
    if due != found {
        return Err(differs(due, found));
    }
    are_same(dues, more)
}

fn are_same(dues: &[u64], found: &[u64]) -> Result<(), Misfit>
    requires { length dues.now ≡ length found.now }
    ensures { result ≡ first_difference State dues.now found.now }
{
    for i in 0..dues.len() {
        if dues[i] != found[i] {
            return Err(differs(dues[i], found[i]));
        }
    }
    Ok(())
}

fn differs(due: u64, found: u64) -> Misfit
    ensures { result ≡ misfit State due found }
{
    Misfit {
        reason: Reason::State,
        expected: due,
        found,
    }
}
