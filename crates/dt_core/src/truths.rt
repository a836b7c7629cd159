//! Which cuts and failures are true of the judged records.
ghost use Rattle.std.specs.Prelude.{◌≡◌, ◌≤◌, length};
ghost use Rattle.std.specs.List.{prefix_len};
ghost use Rattle.dt_record.specs.declared.limits.TheConstants.{RECORD_LIMIT};
ghost use Rattle.dt_core.specs.Machine.{is_crossed, is_key, last_judged, ends_with};

use crate::harts::{Hart, has_failed};
use crate::judgements::Judgement;
use dt_record::{Key, Record, key_of};

/// How many records were allowed, up to the first that was not.
fn passed_len(outcomes: &[bool]) -> usize
    ensures { result ≡ prefix_len (λ o. o) outcomes.now }
{
    outcomes.iter().take_while(|allowed| **allowed).count()
}

/// Every record of the hart with a stamp below the cut was judged without a reason.
pub fn is_crossed(file: &[Record], hart: u8, cut: u64, outcomes: &[bool]) -> bool
    ensures { result ≡ is_crossed file.now hart cut outcomes.now }
{
    file.iter()
        .filter(|event| event.hart == hart)
        .skip(passed_len(outcomes))
        .all(|event| cut <= event.stamp)
}

fn is_key(key: Key, other: Option<Key>) -> bool
    ensures { result ≡ is_key key other }
{
    match other {
        Some(k) => key.stamp == k.stamp && key.hart == k.hart && key.seq == k.seq,
        None => false,
    }
}

/// The key of the last judged record.
fn last_judged<J: Judgement>(state: &Hart<J>) -> Option<Key>
    requires { length state.now.taken ≤ RECORD_LIMIT }
    ensures { result ≡ last_judged state.now }
{
    let seq = state.outcomes().len().saturating_sub(1);
    match state.taken().get(seq) {
        Some(event) => Some(key_of(event, seq as u32)),
        None => None,
    }
}

/// The hart's judged records end with a failure at this key.
pub fn ends_with<J: Judgement>(key: Key, state: &Hart<J>) -> bool
    requires { length state.now.taken ≤ RECORD_LIMIT }
    ensures { result ≡ ends_with key (Some state.now) }
{
    has_failed(state.outcomes()) && is_key(key, last_judged(state))
}
