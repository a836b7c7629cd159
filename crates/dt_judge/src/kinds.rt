ghost use Rattle.std.specs.Prelude.{◌≡◌, ◌≤◌, ℕ, List, length, IsTrue, IsOk, OnOk};
ghost use Rattle.dt_record.specs.Actions.{Action};
ghost use Rattle.dt_record.specs.Lawful.{are_trap_bits, is_instruction, is_ram_line};
ghost use Rattle.dt_checks.specs.Retiring.{due_tag};
ghost use Rattle.dt_drains.specs.Draining.{drain_check};
ghost use Rattle.dt_hart.specs.Taking.{is_placed_at};
ghost use Rattle.dt_loads.specs.Reading.{HasEightPlaces};
ghost use Rattle.dt_reference.specs.Run.{CanRetire};
ghost use Rattle.dt_refills.specs.Refilling.{refill_check};
ghost use Rattle.dt_rules.specs.Checks.{and_then};
ghost use Rattle.dt_step.specs.Alignment.{AccessesAligned};
ghost use Rattle.dt_stores.specs.Draining.{drain_answer};
ghost use Rattle.dt_stores.specs.Standing.{StoresStand};
ghost use Rattle.dt_traps.specs.Traps.{trap_check};
ghost use Rattle.dt_judge.specs.Keeping.{IsPlacedBy, grounds_kept, trap_kept};
ghost use Rattle.dt_judge.specs.Kinds.{commit_finding, fine, of_another_kind, store_finding, stored, trap_finding, with_p};

use crate::spans::{Sight, accessed, started, trap_spans};
use dt_checks::Started;
use dt_commits::{commit_value, undrained};
use dt_drains::{drains, store_data};
use dt_hart::Hart;
use dt_record::{Key, Letters, Retire};
use dt_rules::{Misfit, NO_LETTERS, NO_NUMBER, NO_SOURCES, Passed, Reason};
use dt_step::Planned;
use dt_stores::DrainAnswer;
use dt_traps::TrapEvent;
use dt_versions::{Moments, Span};
use dt_walk::Access;

/// A record of which nothing else is to be said.
pub const PLAIN: Passed = Passed {
    letters: NO_LETTERS,
    sources: NO_SOURCES,
};

/// The answer to a record with this tag whose plan asks for another kind. None comes to it: the
/// checks that a record begins with let only its own kind through.
pub fn of_another_kind(tag: u8) -> Result<Passed, Misfit>
    ensures { result ≡ of_another_kind tag }
{
    Err(Misfit {
        reason: Reason::Kind,
        expected: NO_NUMBER,
        found: u64::from(tag),
    })
}

pub fn fine(checked: Result<(), Misfit>) -> Result<Passed, Misfit>
    ensures { result ≡ and_then checked fine }
{
    checked?;
    Ok(PLAIN)
}

/// The letter P of an allowed load or atomic, beside its others.
pub fn with_p(p: bool, found: Result<Passed, Misfit>) -> Result<Passed, Misfit>
    ensures value { result ≡ with_p p found }
    ensures places { HasEightPlaces found }
{
    match found {
        Ok(found) => Ok(Passed {
            letters: Letters { p, ..found.letters },
            sources: found.sources,
        }),
        Err(refused) => Err(refused),
    }
}

pub fn commit(sight: &Sight<'_>, key: Key, retire: Retire) -> Result<Passed, Misfit>
    requires within { sight.now.last ≤ length sight.now.moments.now.writes }
    requires instruction { IsTrue (is_instruction retire.bits) }
    ensures finds { (actions : List Action) (moments : ℕ → ℕ) → StoresStand sight.now.hart.now.stores actions
        → result ≡ commit_finding (grounds_kept sight.now.hart.now sight.now.moments.now sight.now.last actions moments) key retire }
    ensures can_retire { OnOk result (CanRetire sight.now.hart.now.arch retire.bits) }
{
    let st = started(sight, retire.pc, retire.bits, 1)?;
    undrained(sight.hart.stores(), st.plan, key.stamp, key.seq)?;
    let adopted = commit_value(sight.hart.arch(), st.plan, retire.value)?;
    Ok(Passed {
        letters: Letters {
            p: st.stale,
            c: adopted,
            ..NO_LETTERS
        },
        sources: NO_SOURCES,
    })
}

/// The checks of a trap, where it may see no later moment than this last one.
fn trapped(sight: &Sight<'_>, event: TrapEvent) -> Result<Letters, Misfit>
    requires within { sight.now.last ≤ length sight.now.moments.now.writes }
    requires bits { IsTrue (are_trap_bits event.bits event.cause) }
    ensures { result ≡ trap_check sight.now.moments.now.image sight.now.moments.now.writes
        (trap_kept sight.now.hart.now sight.now.moments.now.writes sight.now.last event.bits)
        sight.now.hart.now.arch event.pc event.bits event.cause event.tval }
{
    let spans = trap_spans(sight, event.bits);
    dt_traps::trap(sight.moments, spans, sight.hart.arch(), event)
}

pub fn trap(sight: &Sight<'_>, event: TrapEvent) -> Result<Passed, Misfit>
    requires within { sight.now.last ≤ length sight.now.moments.now.writes }
    requires bits { IsTrue (are_trap_bits event.bits event.cause) }
    ensures { (actions : List Action) (moments : ℕ → ℕ)
        → result ≡ trap_finding (grounds_kept sight.now.hart.now sight.now.moments.now sight.now.last actions moments)
        event.pc event.bits event.cause event.tval }
{
    let letters = trapped(sight, event)?;
    Ok(Passed {
        letters,
        sources: NO_SOURCES,
    })
}

/// A store after the checks that its instruction begins with.
fn stored(sight: &Sight<'_>, st: Started, paddr: u64, value: u64) -> Result<Passed, Misfit>
    requires within { sight.now.last ≤ length sight.now.moments.now.writes }
    requires aligned { AccessesAligned st.plan }
    requires due { due_tag st.plan ≡ 6 }
    ensures finds { (actions : List Action) (moments : ℕ → ℕ)
        → result ≡ stored (grounds_kept sight.now.hart.now sight.now.moments.now sight.now.last actions moments)
        st.stale st.plan paddr value }
    ensures placed { OnOk result (IsPlacedBy st.plan paddr) }
{
    match st.plan {
        Planned::NeedsStore { va, value: due, .. } => {
            let older = accessed(sight, Access::Store, false, va, paddr)?;
            store_data(due, value)?;
            Ok(Passed {
                letters: Letters {
                    p: st.stale || older,
                    ..NO_LETTERS
                },
                sources: NO_SOURCES,
            })
        }
        _ => of_another_kind(6),
    }
}

pub fn store(
    sight: &Sight<'_>,
    pc: u64,
    bits: u32,
    paddr: u64,
    value: u64,
) -> Result<Passed, Misfit>
    requires within { sight.now.last ≤ length sight.now.moments.now.writes }
    requires instruction { IsTrue (is_instruction bits) }
    ensures finds { (actions : List Action) (moments : ℕ → ℕ)
        → result ≡ store_finding (grounds_kept sight.now.hart.now sight.now.moments.now sight.now.last actions moments)
        pc bits paddr value }
    ensures can_retire { OnOk result (CanRetire sight.now.hart.now.arch bits) }
    ensures placed { OnOk result (IsTrue (is_placed_at bits paddr)) }
{
    let st = started(sight, pc, bits, 6)?;
    stored(sight, st, paddr, value)
}

pub fn drain(
    h: &Hart,
    line: u64,
    mask: u64,
    count: u16,
    bytes: &[u8; 64],
    seq: u32,
) -> Result<Passed, Misfit>
    ensures finds { (actions : List Action) → StoresStand h.now.stores actions
        → result ≡ and_then (drain_check actions line mask count bytes.now seq) fine }
    ensures took { OnOk result ((actions : List Action) → StoresStand h.now.stores actions
        → drain_answer actions line count ≡ DrainAnswer.Took mask bytes.now) }
{
    drains(h.stores(), line, mask, count, bytes, seq)?;
    Ok(PLAIN)
}

pub fn refill(m: &Moments, seen: Span, line: u64, bytes: &[u8; 64]) -> Result<Passed, Misfit>
    requires within { seen.last ≤ length m.now.writes }
    requires line { IsTrue (is_ram_line line) }
    ensures { result ≡ and_then (refill_check m.now.image m.now.writes seen line bytes.now) fine }
{
    fine(dt_refills::refill(m, seen, line, bytes))
}
