ghost use Rattle.std.specs.Prelude.{◌≡◌, ◌≤◌, ℕ, List, length, IsTrue, OnOk, IfOk};
ghost use Rattle.dt_alu.specs.Extend.{IsAccessWidth};
ghost use Rattle.dt_record.specs.declared.records.Body.TheVariants as body;
ghost use Rattle.dt_record.specs.Actions.{Action, order_floor};
ghost use Rattle.dt_record.specs.Lawful.{is_instruction};
ghost use Rattle.dt_checks.specs.Retiring.{due_tag};
ghost use Rattle.dt_hart.specs.Taking.{is_placed_at};
ghost use Rattle.dt_loads.specs.Checks.{order_check};
ghost use Rattle.dt_reference.specs.HartActions.{body_action};
ghost use Rattle.dt_reference.specs.Run.{CanRetire};
ghost use Rattle.dt_sources.specs.Finding.{is_load_place};
ghost use Rattle.dt_step.specs.Alignment.{AccessesAligned};
ghost use Rattle.dt_stores.specs.Standing.{StoresStand};
ghost use Rattle.dt_judge.specs.Kinds.{IsLoadFinding, LoadsBy, LoadsRam, ReadsRam, device_finding};
ghost use Rattle.dt_judge.specs.Keeping.{HasReading, IsPlacedBy, IsReadBy, IsReadIn, OnGrounds, OnPast};

use crate::kinds::{of_another_kind, with_p};
use crate::spans::{Sight, accessed, started};
use dt_checks::Started;
use dt_hart::Hart;
use dt_loads::{device_value, load_ask, order, ram_load};
use dt_record::{Key, Letters, LoadAsk, Retire, is_in_ram};
use dt_rules::{Misfit, NO_LETTERS, NO_SOURCES, Passed};
use dt_step::Planned;
use dt_versions::Moments;
use dt_walk::Access;

/// A load from a device. `p` is whether its fetch or its address is older.
fn from_device(p: bool, width: u8, signed: bool, value: u64) -> Result<Passed, Misfit>
    requires { IsAccessWidth width }
    ensures { result ≡ device_finding p width signed value }
{
    device_value(width, signed, value)?;
    Ok(Passed {
        letters: Letters {
            p,
            d: true,
            ..NO_LETTERS
        },
        sources: NO_SOURCES,
    })
}

/// The sources of a load from RAM. `p` is whether its fetch or its address is older.
fn sourced(
    h: &Hart,
    m: &Moments,
    p: bool,
    ask: LoadAsk,
    signed: bool,
    value: u64,
) -> Result<Passed, Misfit>
    requires early { ask.at ≤ ask.key.stamp }
    requires place { IsTrue (is_load_place ask) }
    ensures finds { (last : ℕ) → OnGrounds h.now m.now last ask.key (λ g. ReadsRam g p ask signed value result) }
    ensures read { IfOk result (λ x. OnPast h.now m.now ask.key (λ actions moments.
        HasReading m.now.image m.now.writes actions moments ask x.sources)) }
{
    with_p(p, ram_load(m, h.stores(), h.local(), ask, signed, value))
}

/// The order of a load from RAM in this cycle after what its hart did before.
fn ordered(h: &Hart, at: u64) -> Result<(), Misfit>
    ensures { (actions : List Action) → StoresStand h.now.stores actions → h.now.floor ≡ order_floor actions
        → result ≡ order_check actions at }
{
    order(h.stores(), h.floor(), at)
}

/// A load from RAM. `p` is whether its fetch or its address is older.
fn from_ram(
    h: &Hart,
    m: &Moments,
    p: bool,
    ask: LoadAsk,
    signed: bool,
    value: u64,
) -> Result<Passed, Misfit>
    requires early { ask.at ≤ ask.key.stamp }
    requires place { IsTrue (is_load_place ask) }
    ensures finds { (last : ℕ) → OnGrounds h.now m.now last ask.key (λ g. LoadsRam g p ask signed value result) }
    ensures read { IfOk result (λ x. OnPast h.now m.now ask.key (λ actions moments.
        HasReading m.now.image m.now.writes actions moments ask x.sources)) }
{
    ordered(h, ask.at)?;
    sourced(h, m, p, ask, signed, value)
}

/// A load after the checks that its instruction begins with.
fn loaded(
    sight: &Sight<'_>,
    key: Key,
    st: Started,
    value: u64,
    at: u64,
    paddr: u64,
) -> Result<Passed, Misfit>
    requires within { sight.now.last ≤ length sight.now.moments.now.writes }
    requires aligned { AccessesAligned st.plan }
    requires due { due_tag st.plan ≡ 5 }
    requires early { at ≤ key.stamp }
    ensures finds { OnGrounds sight.now.hart.now sight.now.moments.now sight.now.last key (λ g.
        LoadsBy g key st.stale st.plan value at paddr result) }
    ensures placed { OnOk result (IsPlacedBy st.plan paddr) }
    ensures read { IfOk result (λ x. OnPast sight.now.hart.now sight.now.moments.now key (λ actions moments.
        IsReadBy sight.now.moments.now.image sight.now.moments.now.writes actions moments st.plan key value at paddr x.sources)) }
{
    match st.plan {
        Planned::NeedsLoad {
            va,
            width,
            signed,
            ..
        } => {
            let older = accessed(sight, Access::Load, false, va, paddr)?;
            let p = st.stale || older;
            if is_in_ram(paddr) {
                let ask = load_ask(key, at, paddr, width, value);
                from_ram(sight.hart, sight.moments, p, ask, signed, value)
            } else {
                from_device(p, width, signed, value)
            }
        }
        _ => of_another_kind(5),
    }
}

pub fn load(
    sight: &Sight<'_>,
    key: Key,
    retire: Retire,
    at: u64,
    paddr: u64,
) -> Result<Passed, Misfit>
    requires within { sight.now.last ≤ length sight.now.moments.now.writes }
    requires instruction { IsTrue (is_instruction retire.bits) }
    requires early { at ≤ key.stamp }
    ensures finds { OnGrounds sight.now.hart.now sight.now.moments.now sight.now.last key (λ g.
        IsLoadFinding g key retire at paddr result) }
    ensures can_retire { OnOk result (CanRetire sight.now.hart.now.arch retire.bits) }
    ensures placed { OnOk result (IsTrue (is_placed_at retire.bits paddr)) }
    ensures read { IfOk result (λ x. OnPast sight.now.hart.now sight.now.moments.now key (λ actions moments.
        IsReadIn sight.now.moments.now.image sight.now.moments.now.writes actions moments
        (body_action key (body.Load retire at paddr)) x.sources)) }
{
    let st = started(sight, retire.pc, retire.bits, 5)?;
    loaded(sight, key, st, retire.value, at, paddr)
}
