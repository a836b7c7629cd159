ghost use Rattle.std.specs.Prelude.{◌≡◌, ◌≤◌, ℕ, List, length, IsTrue, OnOk, IfOk};
ghost use Rattle.dt_record.specs.Lawful.{IsLawful};
ghost use Rattle.dt_hart.specs.Taking.{is_placed};
ghost use Rattle.dt_reference.specs.HartActions.{body_action};
ghost use Rattle.dt_reference.specs.Run.{CanFollow};
ghost use Rattle.dt_judge.specs.Judgement.{FindsBody};
ghost use Rattle.dt_judge.specs.Keeping.{OnGrounds, OnPast, WasFound};
ghost use Rattle.dt_judge.specs.Kinds.{seen_by};

use crate::atomics::{atomic, said_as};
use crate::kinds::{PLAIN, commit, drain, fine, refill, store, trap};
use crate::loads::load;
use crate::spans::Sight;
use dt_commits::{shows_csrs, shows_registers};
use dt_hart::Hart;
use dt_record::{Body, Key, Record};
use dt_rules::{Misfit, Passed};
use dt_traps::TrapEvent;
use dt_versions::{Moments, Span};

/// What the judgement finds of the hart's record with this key, which may see these moments.
pub fn finding(
    h: &Hart,
    m: &Moments,
    seen: Span,
    key: Key,
    event: &Record,
) -> Result<Passed, Misfit>
    requires seen { seen ≡ seen_by m.now.writes key }
    requires within { seen.last ≤ length m.now.writes }
    requires lawful { IsLawful event.now }
    requires stamp { key.stamp ≡ event.now.stamp }
    ensures finds { OnGrounds h.now m.now seen.last key (λ g. FindsBody g key event.now.body result) }
    ensures follows { OnOk result (CanFollow h.now.arch event.now.body) }
    ensures placed { OnOk result (IsTrue (is_placed (body_action key event.now.body))) }
    ensures found { IfOk result (λ x. OnPast h.now m.now key (λ actions moments.
        WasFound m.now.image m.now.writes actions moments key event.now.body x.sources)) }
{
    let sight = Sight {
        hart: h,
        moments: m,
        last: seen.last,
    };
    match &event.body {
        Body::Commit { retire } => commit(&sight, key, *retire),
        Body::Trap {
            pc,
            bits,
            cause,
            tval,
        } => {
            let event = TrapEvent {
                pc: *pc,
                bits: *bits,
                cause: *cause,
                tval: *tval,
            };
            trap(&sight, event)
        }
        Body::Regs { pc, x } => fine(shows_registers(h.arch(), *pc, x)),
        Body::Csrs { mode, v } => fine(shows_csrs(h.arch(), *mode, v)),
        Body::Load { retire, at, paddr } => load(&sight, key, *retire, *at, *paddr),
        Body::Store {
            pc,
            bits,
            paddr,
            value,
        } => store(&sight, *pc, *bits, *paddr, *value),
        Body::Atomic {
            retire,
            paddr,
            width,
            wrote,
            new,
        } => {
            let said = said_as(retire.value, *paddr, *width, *wrote, *new);
            atomic(&sight, key, *retire, said)
        }
        Body::Drain {
            line,
            mask,
            count,
            bytes,
        } => drain(h, *line, *mask, *count, bytes, key.seq),
        Body::Refill { line, bytes } => refill(m, seen, *line, bytes),
        Body::Beat => Ok(PLAIN),
    }
}
