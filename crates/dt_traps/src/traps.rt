ghost use Rattle.std.specs.Prelude.{◌≡◌, ◌≤◌, ◌^◌, ◌%◌, length, IsTrue};
ghost use Rattle.dt_checks.specs.Fetching.{SpansEndWithin as FetchSpansEndWithin};
ghost use Rattle.dt_record.specs.Lawful.{are_trap_bits, is_fetch_fault, is_instruction};
ghost use Rattle.dt_step.specs.State.{IsArch};
ghost use Rattle.dt_traps.specs.Traps.{SpansEndWithin, cause_check, entry_check, execution_check, fetch_fault_check, first_half_check, instruction_check, interrupt_check, is_first_half, is_interrupt, letters_of, second_fault_check, trap_check, tval_check};

use crate::faults::{Raised, fault};
use crate::instructions::{plan_trap, planned};
use dt_access::walk_args;
use dt_checks::{FetchSpans, fetched, half_fetched};
use dt_csr::cause::{FETCH_ACCESS, FETCH_PAGE};
use dt_rules::{Letters, Misfit, NO_LETTERS, Reason, interrupt, tval};
use dt_step::Arch;
use dt_versions::{Moments, Span};
use dt_walk::Access;

/// The moments that a trap may go back to.
#[derive(Clone, Copy, Debug, PartialEq, Eq)]
pub struct TrapSpans {
    /// Of the fetch.
    pub fetch: FetchSpans,
    /// The moments whose page tables may translate the address that the instruction accesses
    /// (`access_address`). For a trap without such an address any window does.
    pub access: Span,
}

/// What a record of a trap says.
#[derive(Clone, Copy, Debug, PartialEq, Eq)]
pub struct TrapEvent {
    pub pc: u64,
    pub bits: u32,
    pub cause: u64,
    pub tval: u64,
}

/// The lowest cause of an interrupt.
const FIRST_INTERRUPT: u64 = 1 << 63;

fn is_interrupt(cause: u64) -> bool
    ensures { result ≡ is_interrupt cause }
{
    cause >= FIRST_INTERRUPT
}

fn is_fetch_fault(cause: u64) -> bool
    ensures { result ≡ is_fetch_fault cause }
{
    cause == FETCH_ACCESS || cause == FETCH_PAGE
}

fn interrupt_trap(a: &Arch, cause: u64) -> Result<Raised, Misfit>
    requires { IsTrue (is_interrupt cause) }
    ensures { result ≡ interrupt_check a.now cause }
{
    match interrupt(&a.csrs, a.mode, cause) {
        Ok(()) => Ok(Raised {
            stale: false,
            tval: 0,
        }),
        Err(enabled) => Err(Misfit {
            reason: Reason::Interrupt,
            expected: enabled,
            found: cause,
        }),
    }
}

fn is_first_half(bits: u32) -> bool
    ensures { result ≡ is_first_half bits }
{
    bits % 4 == 3 && bits < 0x1_0000
}

/// The fetch of the first halfword of an instruction whose second one faults.
fn first_fetched(m: &Moments, spans: FetchSpans, a: &Arch, bits: u32) -> Result<bool, Misfit>
    requires spans { FetchSpansEndWithin spans (length m.now.writes) }
    requires arch { IsArch a.now }
    requires even { a.now.pc % 2 ≡ 0 }
    ensures { result ≡ first_half_check m.now.image m.now.writes spans a.now bits }
{
    let half = (bits % 0x1_0000) as u16;
    if is_first_half(bits) {
        half_fetched(m, spans.first, spans.since, a, a.pc, half)
    } else {
        Err(Misfit {
            reason: Reason::Fetch,
            expected: a.pc,
            found: u64::from(half),
        })
    }
}

/// The fault of the second halfword, where it is known of the first whether it is older.
fn second_fault(
    m: &Moments,
    spans: FetchSpans,
    a: &Arch,
    cause: u64,
    stale: bool,
) -> Result<Raised, Misfit>
    requires spans { FetchSpansEndWithin spans (length m.now.writes) }
    requires arch { IsArch a.now }
    ensures { result ≡ second_fault_check m.now.image m.now.writes spans a.now cause stale }
{
    let args = walk_args(a, Access::Fetch, a.pc.wrapping_add(2));
    let found = fault(m, spans.second, args, true, cause)?;
    Ok(Raised {
        stale: stale || found.stale,
        tval: found.tval,
    })
}

/// A fetch that faults: at the first halfword where the trap has no bits, and else at the second.
fn fetch_fault(
    m: &Moments,
    spans: FetchSpans,
    a: &Arch,
    bits: u32,
    cause: u64,
) -> Result<Raised, Misfit>
    requires spans { FetchSpansEndWithin spans (length m.now.writes) }
    requires arch { IsArch a.now }
    requires even { a.now.pc % 2 ≡ 0 }
    ensures { result ≡ fetch_fault_check m.now.image m.now.writes spans a.now bits cause }
{
    if bits == 0 {
        return fault(
            m,
            spans.first,
            walk_args(a, Access::Fetch, a.pc),
            true,
            cause,
        );
    }
    let stale = first_fetched(m, spans, a, bits)?;
    second_fault(m, spans, a, cause, stale)
}

/// What an instruction raises, where it is known whether its fetch is of older moments.
fn execution_trap(
    m: &Moments,
    window: Span,
    a: &Arch,
    bits: u32,
    cause: u64,
    stale: bool,
) -> Result<Raised, Misfit>
    requires within { window.last ≤ length m.now.writes }
    requires arch { IsArch a.now }
    requires instruction { IsTrue (is_instruction bits) }
    ensures { result ≡ execution_check m.now.image m.now.writes window a.now bits cause stale }
{
    let found = plan_trap(m, window, a, planned(a, bits), cause)?;
    Ok(Raised {
        stale: stale || found.stale,
        tval: found.tval,
    })
}

fn instruction_trap(
    m: &Moments,
    spans: TrapSpans,
    a: &Arch,
    bits: u32,
    cause: u64,
) -> Result<Raised, Misfit>
    requires spans { SpansEndWithin spans (length m.now.writes) }
    requires arch { IsArch a.now }
    requires even { a.now.pc % 2 ≡ 0 }
    requires instruction { IsTrue (is_instruction bits) }
    ensures { result ≡ instruction_check m.now.image m.now.writes spans a.now bits cause }
{
    let stale = fetched(m, spans.fetch, a, bits)?;
    execution_trap(m, spans.access, a, bits, cause, stale)
}

fn trap_cause(
    m: &Moments,
    spans: TrapSpans,
    a: &Arch,
    bits: u32,
    cause: u64,
) -> Result<Raised, Misfit>
    requires spans { SpansEndWithin spans (length m.now.writes) }
    requires arch { IsArch a.now }
    requires even { a.now.pc % 2 ≡ 0 }
    requires bits { IsTrue (are_trap_bits bits cause) }
    ensures { result ≡ cause_check m.now.image m.now.writes spans a.now bits cause }
{
    if is_interrupt(cause) {
        interrupt_trap(a, cause)
    } else if is_fetch_fault(cause) {
        fetch_fault(m, spans.fetch, a, bits, cause)
    } else {
        instruction_trap(m, spans, a, bits, cause)
    }
}

fn is_zeroed(expected: u64, found: u64) -> Result<bool, Misfit>
    ensures { result ≡ tval_check expected found }
{
    match tval(expected, found) {
        Some(zeroed) => Ok(zeroed),
        None => Err(Misfit {
            reason: Reason::Tval,
            expected,
            found,
        }),
    }
}

fn letters_of(stale: bool, interrupt: bool, zeroed: bool) -> Letters
    ensures { result ≡ letters_of stale interrupt zeroed }
{
    Letters {
        p: stale,
        i: interrupt,
        z: zeroed,
        ..NO_LETTERS
    }
}

/// The tval of a trap with an allowed cause, and then its letters.
fn entry(cause: u64, tval: u64, found: Raised) -> Result<Letters, Misfit>
    ensures { result ≡ entry_check cause tval found }
{
    let zeroed = is_zeroed(found.tval, tval)?;
    Ok(letters_of(found.stale, is_interrupt(cause), zeroed))
}

/// Whether a hart in this state may enter the trap, and the letters of the rules that allow it: I
/// for an interrupt, P where a fetch or a translation is of an older moment than the last of its
/// span, and Z where tval is 0 in place of another value. The event is that of a lawful record.
///
/// The first misfit counts: of Pc; of an interrupt Interrupt, which expects the enabled codes as
/// bits of a mask; of an exception Fetch, with the numbers of `fetched` in dt_checks, and Cause,
/// which expects the instruction's own cause where it has one, or else the one at the last moment
/// of the window, or `NO_NUMBER` where there is none; and Tval. Found is what the record says.
pub fn trap(m: &Moments, spans: TrapSpans, a: &Arch, event: TrapEvent) -> Result<Letters, Misfit>
    requires spans { SpansEndWithin spans (length m.now.writes) }
    requires arch { IsArch a.now }
    requires even { a.now.pc % 2 ≡ 0 }
    requires bits { IsTrue (are_trap_bits event.bits event.cause) }
    ensures { result ≡ trap_check m.now.image m.now.writes spans a.now event.pc event.bits event.cause event.tval }
{
    let TrapEvent {
        pc,
        bits,
        cause,
        tval,
    } = event;
    if pc != a.pc {
        return Err(Misfit {
            reason: Reason::Pc,
            expected: a.pc,
            found: pc,
        });
    }
    let found = trap_cause(m, spans, a, bits, cause)?;
    entry(cause, tval, found)
}
