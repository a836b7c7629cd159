ghost use Rattle.std.specs.Prelude.{◌≡◌, ◌≤◌, ℕ, List, length, IsTrue, OnOk, IfOk};
ghost use Rattle.dt_atomics.specs.Asking.{reads};
ghost use Rattle.dt_checks.specs.Retiring.{due_tag};
ghost use Rattle.dt_hart.specs.Taking.{ReadsAtKey};
ghost use Rattle.dt_record.specs.declared.records.Body.TheVariants as body;
ghost use Rattle.dt_record.specs.Lawful.{is_atomic_place, is_instruction};
ghost use Rattle.dt_reference.specs.HartActions.{body_action};
ghost use Rattle.dt_reference.specs.Run.{CanRetire};
ghost use Rattle.dt_step.specs.Alignment.{AccessesAligned};
ghost use Rattle.dt_judge.specs.Keeping.{IsAccessedBy, IsReadIn, OnGrounds, OnPast};
ghost use Rattle.dt_judge.specs.Kinds.{Accesses, AtomicBy, IsAtomicFinding};

use crate::kinds::{of_another_kind, with_p};
use crate::spans::{Sight, accessed, started};
use dt_access::atomic_access;
use dt_atomics::{AtomicAccess, allowed_atomics_are_exact};
use dt_checks::Started;
use dt_hart::Hart;
use dt_record::{Key, Retire};
use dt_rules::{Misfit, Passed};
use dt_step::Planned;
use dt_versions::Moments;

/// What the record of an atomic says beside its pc and its bits.
#[derive(Clone, Copy, Debug, PartialEq, Eq)]
pub struct Said {
    pub value: u64,
    pub paddr: u64,
    pub width: u8,
    pub wrote: bool,
    pub new: u64,
}

pub fn said_as(value: u64, paddr: u64, width: u8, wrote: bool, new: u64) -> Said
    ensures { result ≡ record { value = value; paddr = paddr; width = width; wrote = wrote; new = new } }
{
    Said {
        value,
        paddr,
        width,
        wrote,
        new,
    }
}

/// An atomic at an allowed address. `p` is whether its fetch or its address is older.
fn at_address(h: &Hart, m: &Moments, p: bool, key: Key, x: AtomicAccess) -> Result<Passed, Misfit>
    requires { IsTrue (is_atomic_place x.paddr x.width) }
    ensures finds { (last : ℕ) → OnGrounds h.now m.now last key (λ g. Accesses g key p x result) }
    ensures read { IfOk result (λ passed. OnPast h.now m.now key (λ actions moments.
        IsTrue (reads x.op) → ReadsAtKey m.now.writes key x.paddr x.said_width passed.sources)) }
{
    allowed_atomics_are_exact();
    with_p(
        p,
        dt_atomics::atomic(m, h.stores(), h.local(), h.reserved(), key, x),
    )
}

/// An atomic after the checks that its instruction begins with.
fn planned(sight: &Sight<'_>, key: Key, st: Started, said: Said) -> Result<Passed, Misfit>
    requires within { sight.now.last ≤ length sight.now.moments.now.writes }
    requires aligned { AccessesAligned st.plan }
    requires due { due_tag st.plan ≡ 7 }
    ensures finds { OnGrounds sight.now.hart.now sight.now.moments.now sight.now.last key (λ g.
        AtomicBy g key st.stale st.plan said result) }
    ensures read { IfOk result (λ passed. OnPast sight.now.hart.now sight.now.moments.now key (λ actions moments.
        IsAccessedBy sight.now.moments.now.writes st.plan key said.paddr said.width passed.sources)) }
{
    match st.plan {
        Planned::NeedsAtomic {
            va,
            width,
            op,
            rl,
            operand,
            ..
        } => {
            let older = accessed(sight, atomic_access(op), true, va, said.paddr)?;
            let x = AtomicAccess {
                op,
                width,
                release: rl,
                operand,
                paddr: said.paddr,
                value: said.value,
                said_width: said.width,
                wrote: said.wrote,
                new: said.new,
            };
            at_address(sight.hart, sight.moments, st.stale || older, key, x)
        }
        _ => of_another_kind(7),
    }
}

pub fn atomic(sight: &Sight<'_>, key: Key, retire: Retire, said: Said) -> Result<Passed, Misfit>
    requires within { sight.now.last ≤ length sight.now.moments.now.writes }
    requires instruction { IsTrue (is_instruction retire.bits) }
    ensures finds { OnGrounds sight.now.hart.now sight.now.moments.now sight.now.last key (λ g.
        IsAtomicFinding g key retire.pc retire.bits said result) }
    ensures can_retire { OnOk result (CanRetire sight.now.hart.now.arch retire.bits) }
    ensures read { IfOk result (λ passed. OnPast sight.now.hart.now sight.now.moments.now key (λ actions moments.
        IsReadIn sight.now.moments.now.image sight.now.moments.now.writes actions moments
        (body_action key (body.Atomic retire said.paddr said.width said.wrote said.new)) passed.sources)) }
{
    let st = started(sight, retire.pc, retire.bits, 7)?;
    planned(sight, key, st, said)
}
