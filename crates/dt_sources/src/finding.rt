ghost use Rattle.std.specs.Prelude.{◌≡◌, ℕ, ◌+◌, ◌%◌, ◌≤◌, ◌<◌, List, Some, true, false, length, take, slice_get, IsTrue, MatchOption};
ghost use Rattle.dt_record.specs.declared.limits.TheConstants.{RAM_END, RAM_START};
ghost use Rattle.dt_record.specs.Actions.{Action};
ghost use Rattle.dt_stores.specs.Standing.{StoresStand};
ghost use Rattle.dt_stores.specs.Draining.{forward_after};
ghost use Rattle.dt_local.specs.LocalMemory.{newest_of};
ghost use Rattle.dt_sources.specs.Finding.{is_load_place, StoresAreApart, FitsAsKnown, IsLeastMoment, AreSourcesAt, OnAt, OnNowhere};
ghost use Rattle.dt_sources.specs.Tries.{are_fit};

use crate::tries::{LoadByte, is_fit, origins_at};
use dt_local::Local;
use dt_record::{LoadAsk, Sources};
use dt_stores::Stores;
use dt_versions::{Moments, Span, steady_words_stay};

/// Where the bytes of a load come from.
#[derive(Clone, Copy, Debug, PartialEq, Eq)]
pub enum Found {
    /// The least moment at which the load may have read memory, and the sources of its bytes then.
    At { moment: u32, sources: Sources },
    /// There is no such moment.
    Nowhere,
}

/// The least moment that the load may see, that gives the loaded value together with what the
/// hart's own stores forward, and in which no byte comes from below the newest key that the hart
/// knows for it.
pub fn find(m: &Moments, s: &Stores, l: &Local, ask: LoadAsk) -> Found
    requires early { ask.at ≤ ask.key.stamp }
    requires place { IsTrue (is_load_place ask) }
    ensures least { OnAt result (λ moment sources. (actions : List Action) → StoresStand s.now actions → StoresAreApart actions
        → IsLeastMoment m.now.image m.now.writes l.now actions ask moment) }
    ensures sources { OnAt result (λ moment sources. (actions : List Action) → StoresStand s.now actions
        → AreSourcesAt m.now.writes actions ask moment sources) }
    ensures nowhere { OnNowhere result ((actions : List Action) → StoresStand s.now actions → StoresAreApart actions → (k : ℕ)
        → ¬ FitsAsKnown m.now.image m.now.writes l.now actions ask k) }
{
    let known = known_bytes(s, l, ask);
    let bytes = &known[..usize::from(ask.width)];
    match least_fit(m, m.visible(ask.key, ask.at), ask.addr, ask.raw, bytes) {
        Some(moment) => Found::At {
            moment,
            sources: Sources {
                count: ask.width,
                from: origins_at(m, moment, ask.addr, bytes),
            },
        },
        None => Found::Nowhere,
    }
}

/// What is known of each byte of a load before any moment is tried.
fn known_bytes(s: &Stores, l: &Local, ask: LoadAsk) -> [LoadByte; 8]
    requires in_ram { ask.addr < RAM_END }
    ensures own { (actions : List Action) → StoresStand s.now actions → (i : ℕ) (b : LoadByte) → slice_get result i ≡ Some b
        → b.own ≡ forward_after actions (ask.addr + i) ask.at }
    ensures newest { (i : ℕ) (b : LoadByte) → slice_get result i ≡ Some b → b.newest ≡ newest_of l.now (ask.addr + i) }
{
    let mut bytes = [LoadByte {
        own: None,
        newest: None,
    }; 8];
    for i in 0..8 {
        bytes[i] = known_byte(s, l, ask.addr + i as u64, ask.at);
    }
    bytes
}

fn known_byte(s: &Stores, l: &Local, addr: u64, at: u64) -> LoadByte
    ensures own { (actions : List Action) → StoresStand s.now actions → result.own ≡ forward_after actions addr at }
    ensures newest { result.newest ≡ newest_of l.now addr }
{
    LoadByte {
        own: s.forward(addr, at),
        newest: l.newest(addr),
    }
}

/// The least moment of a span that fits, of bytes within one aligned word. From one change of the word
/// to the next all moments fit alike, so none is tried but the span's first and the changes after it.
fn least_fit(m: &Moments, span: Span, addr: u64, raw: u64, bytes: &[LoadByte]) -> Option<u32>
    requires within { span.last ≤ length m.now.writes }
    requires in_ram { RAM_START ≤ addr }
    requires before_end { addr + length bytes.now ≤ RAM_END }
    requires some { 0 < length bytes.now }
    requires in_word { addr % 8 + length bytes.now ≤ 8 }
    ensures least { MatchOption result ((k : ℕ) → span.first ≤ k → k ≤ span.last
        → are_fit m.now k addr raw bytes.now ≡ false) (λ found. (span.first ≤ found) × (found ≤ span.last)
        × (are_fit m.now found addr raw bytes.now ≡ true) × ((k : ℕ) → span.first ≤ k → k < found
        → are_fit m.now k addr raw bytes.now ≡ false)) }
{
    // The proof of the loop uses this law.
    steady_words_stay();
    let mut k = span.first;
    while k <= span.last {
        if is_fit(m, k, addr, raw, bytes) {
            return Some(k);
        }
        match m.next_change(k, addr) {
            Some(next) => k = next,
            None => return None,
        }
    }
    None
}
