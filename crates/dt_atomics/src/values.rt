ghost use Rattle.std.specs.Prelude.{◌≡◌, IsTrue};
ghost use Rattle.dt_alu.specs.Amo.{IsAmoWidth};
ghost use Rattle.dt_rules.specs.Checks.{misfit};
ghost use Rattle.dt_atomics.specs.Values.{due_check, new_value, one_if, result_check, success_check, value_check, write_check};

use crate::accesses::{AtomicAccess, is_conditional, writes_now};
use dt_alu::{amo, extend};
use dt_rules::{Misfit, Reason};
use dt_step::AtomicOp;

/// Whether an SC that wrote found its reservation live.
pub fn success(live: bool, x: AtomicAccess) -> Result<(), Misfit>
    ensures { result ≡ success_check live x }
{
    if is_conditional(x.op) && x.wrote && !live {
        return Err(misfit(Reason::ScSuccess, 1, 0));
    }
    Ok(())
}

/// Whether the value is the old one, sign-extended, or the result that an SC gives.
pub fn value(old: u64, x: AtomicAccess) -> Result<(), Misfit>
    requires wide { IsAmoWidth x.width }
    ensures { result ≡ value_check old x }
{
    if is_conditional(x.op) {
        sc_result(x.wrote, x.value)
    } else {
        due(Reason::AtomicValue, extend(x.width, true, old), x.value)
    }
}

/// The result of an SC is 0 where it succeeded, and any other number where it failed.
fn sc_result(wrote: bool, value: u64) -> Result<(), Misfit>
    ensures { result ≡ result_check wrote value }
{
    if wrote {
        due(Reason::AtomicValue, 0, value)
    } else if value != 0 {
        Ok(())
    } else {
        Err(misfit(Reason::AtomicValue, 1, value))
    }
}

/// Whether the record has the instruction's width, says rightly whether memory was written, and
/// has what was written.
pub fn write(old: u64, x: AtomicAccess) -> Result<(), Misfit>
    requires wide { IsAmoWidth x.width }
    ensures { result ≡ write_check old x }
{
    due(
        Reason::AtomicWrite,
        u64::from(x.width),
        u64::from(x.said_width),
    )?;
    due(
        Reason::AtomicWrite,
        one_if(writes_now(x.op, x.wrote)),
        one_if(x.wrote),
    )?;
    due(Reason::AtomicWrite, new_value(old, x), x.new)
}

fn new_value(old: u64, x: AtomicAccess) -> u64
    requires wide { IsAmoWidth x.width }
    ensures { result ≡ new_value x.op x.wrote x.width old x.operand }
{
    match x.op {
        AtomicOp::Lr => 0,
        AtomicOp::Sc => { if x.wrote { x.operand } else { 0 } }
        AtomicOp::Amo(op) => amo(op, x.width, old, x.operand),
    }
}

fn one_if(b: bool) -> u64
    ensures { result ≡ one_if b }
{
    if b { 1 } else { 0 }
}

fn due(reason: Reason, due: u64, found: u64) -> Result<(), Misfit>
    ensures { result ≡ due_check reason due found }
{
    if due == found {
        Ok(())
    } else {
        Err(misfit(reason, due, found))
    }
}

fn misfit(reason: Reason, expected: u64, found: u64) -> Misfit
    ensures { result ≡ misfit reason expected found }
{
    Misfit {
        reason,
        expected,
        found,
    }
}
