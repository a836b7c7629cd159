ghost use Rattle.std.specs.Prelude.{◌≡◌, ℕ, ◌+◌, ◌≤◌, ◌<◌, ◌↔◌, Some, List, length, slice_get, IsTrue};
ghost use Rattle.dt_alu.specs.Extend.{IsAccessWidth};
ghost use Rattle.dt_record.specs.Actions.{Action};
ghost use Rattle.dt_record.specs.declared.limits.TheConstants.{RAM_END, RAM_START};
ghost use Rattle.dt_record.specs.LoadSources.{found_byte, found_value};
ghost use Rattle.dt_stores.specs.Standing.{StoresStand};
ghost use Rattle.dt_sources.specs.Finding.{is_load_place};
ghost use Rattle.dt_rules.specs.Checks.{misfit};
ghost use Rattle.dt_record.specs.declared.reasons.Reason.TheVariants.{LoadSource};
ghost use Rattle.dt_loads.specs.Newer.{HasNewerByte, is_newer_than};
ghost use Rattle.dt_loads.specs.Reading.{ask_of, load_letters, expected_load, IsAnswered};

use dt_alu::extend;
use dt_local::Local;
use dt_record::{Key, Letters, LoadAsk, Origin, Sources};
use dt_rules::{Misfit, NO_LETTERS, Passed, Reason};
use dt_sources::{
    Found, find, known_fit_is_fit, least_choice_goes_on, least_choice_is_least, refusal_is_exact,
};
use dt_stores::Stores;
use dt_versions::Moments;

/// A load from RAM, of 1, 2, 4 or 8 bytes, as it asks where its bytes may come from.
#[tactic(auto, unfolding(dt_alu::specs::Extend::extend_value))]
pub fn load_ask(key: Key, at: u64, paddr: u64, width: u8, value: u64) -> LoadAsk
    requires { IsAccessWidth width }
    ensures { result ≡ ask_of key at paddr width value }
{
    LoadAsk {
        key,
        at,
        addr: paddr,
        width,
        raw: extend(width, false, value),
    }
}

/// Finds the sources of a load from RAM with this value, sign-extended or zero-extended, for a hart
/// with these stores and this local memory. A misfit is of LoadSource: it expects the value that
/// the load has at the last moment that it may see, and found is its value.
pub fn ram_load(
    m: &Moments,
    s: &Stores,
    l: &Local,
    ask: LoadAsk,
    signed: bool,
    value: u64,
) -> Result<Passed, Misfit>
    requires early { ask.at ≤ ask.key.stamp }
    requires place { IsTrue (is_load_place ask) }
    ensures { IsAnswered m.now s.now l.now ask signed value result }
{
    if extend(ask.width, signed, ask.raw) != value {
        return Err(refusal(m, s, ask, signed, value));
    }
    known_fit_is_fit();
    least_choice_goes_on();
    least_choice_is_least();
    refusal_is_exact();
    match find(m, s, l, ask) {
        Found::At { sources, .. } => Ok(allowed(l, ask, sources)),
        Found::Nowhere => Err(refusal(m, s, ask, signed, value)),
    }
}

fn allowed(l: &Local, ask: LoadAsk, sources: Sources) -> Passed
    requires place { IsTrue (is_load_place ask) }
    ensures sources { result.sources ≡ sources }
    ensures letters { result.letters ≡ load_letters result.letters.l }
    ensures newer { IsTrue result.letters.l ↔ HasNewerByte l.now ask sources }
{
    Passed {
        letters: Letters {
            l: has_newer(l, ask, sources),
            ..NO_LETTERS
        },
        sources,
    }
}

/// Whether a byte of the load comes from a write that is newer than the newest one known for it.
fn has_newer(l: &Local, ask: LoadAsk, sources: Sources) -> bool
    requires place { IsTrue (is_load_place ask) }
    ensures { IsTrue result ↔ HasNewerByte l.now ask sources }
{
    for i in 0..usize::from(ask.width) {
        if is_newer(sources.from[i], l.newest(ask.addr + i as u64)) {
            return true;
        }
    }
    false
}

/// Whether a byte from here comes from a write that is above the newest key known for the byte.
pub fn is_newer(from: Origin, newest: Option<Key>) -> bool
    ensures { result ≡ is_newer_than newest from }
{
    match (from, newest) {
        (Origin::Write(key), Some(newest)) => newest < key,
        (Origin::Write(_), None) => true,
        (Origin::Image | Origin::Store(_), _) => false,
    }
}

fn refusal(m: &Moments, s: &Stores, ask: LoadAsk, signed: bool, value: u64) -> Misfit
    requires early { ask.at ≤ ask.key.stamp }
    requires place { IsTrue (is_load_place ask) }
    ensures { (actions : List Action) → StoresStand s.now actions
        → result ≡ misfit LoadSource (expected_load m.now.image m.now.writes actions ask signed) value }
{
    let last = m.visible(ask.key, ask.at).last;
    Misfit {
        reason: Reason::LoadSource,
        expected: extend(ask.width, signed, found_at(m, s, last, ask)),
        found: value,
    }
}

/// The number whose bytes the load finds at moment k.
fn found_at(m: &Moments, s: &Stores, k: u32, ask: LoadAsk) -> u64
    requires within { k ≤ length m.now.writes }
    requires place { IsTrue (is_load_place ask) }
    ensures { (actions : List Action) → StoresStand s.now actions
        → result ≡ found_value m.now.image m.now.writes actions ask k ask.width ask.addr }
{
    let mut found = 0;
    for i in 0..ask.width {
        let addr = ask.addr + u64::from(ask.width - 1 - i);
        found = found * 256 + u64::from(byte_at(m, s, k, ask, addr));
    }
    found
}

fn byte_at(m: &Moments, s: &Stores, k: u32, ask: LoadAsk, addr: u64) -> u8
    requires within { k ≤ length m.now.writes }
    requires in_ram { RAM_START ≤ addr }
    requires before_end { addr < RAM_END }
    ensures { (actions : List Action) → StoresStand s.now actions → result ≡ found_byte m.now.image m.now.writes actions ask k addr }
{
    match s.forward(addr, ask.at) {
        Some(f) => f.byte,
        None => m.byte(k, addr),
    }
}
