ghost use Rattle.std.specs.Prelude.{◌≡◌, ◌≤◌, ◌<◌, ◌+◌, ◌%◌, ◌==◌, length, IsTrue, IfSome, IfNone};
ghost use Rattle.dt_record.specs.declared.limits.TheConstants.{RAM_END, RAM_START};
ghost use Rattle.dt_walk.specs.Walk.{CanWalk};
ghost use Rattle.dt_translate.specs.Fetches.{IsChosen, IsNeverFetched, LeadsToHalf, fetch_moments, stands_at};
ghost use Rattle.dt_translate.specs.Newest.{HasNone, IsNewest};
ghost use Rattle.dt_translate.specs.Outcomes.{allowed_moment, half_at, outcome_at};

use crate::outcomes::{fetch_outcome, half, outcome};
use crate::tables::steady_walk;
use dt_versions::{Moments, Span, steady_words_stay};
use dt_walk::{WalkAnswer, WalkArgs};

/// The newest moment of the window whose outcome is the wanted one. None where no moment gives it,
/// as in a window whose first moment is above its last.
pub fn allowed(
    m: &Moments,
    window: Span,
    a: WalkArgs,
    ram_only: bool,
    wanted: WalkAnswer,
) -> Option<u32>
    requires within { window.last ≤ length m.now.writes }
    requires args { CanWalk a }
    ensures value { result ≡ allowed_moment m.now.image m.now.writes window a ram_only wanted }
    ensures found { IfSome result (λ k. IsNewest (λ j. outcome_at m.now.image m.now.writes j a ram_only ≡ wanted) window k) }
    ensures none { IfNone result (HasNone (λ j. outcome_at m.now.image m.now.writes j a ram_only ≡ wanted) window) }
{
    let mut k = window.last;
    'down: while window.first <= k {
        if outcome(m, k, a, ram_only) == wanted {
            return Some(k);
        }
        let from = steady_walk(m, k, a);
        if from == 0 {
            return None;
        }
        k = from - 1;
    }
    None
}

/// The newest moment of a span that has the halfword at the address.
fn newest_half(m: &Moments, span: Span, addr: u64, wanted: u16) -> Option<u32>
    requires within { span.last ≤ length m.now.writes }
    requires even { addr % 2 ≡ 0 }
    requires in_ram { RAM_START ≤ addr }
    requires before_end { addr + 1 < RAM_END }
    ensures found { IfSome result (λ k. IsNewest (λ j. IsTrue (half_at m.now.image m.now.writes j addr == wanted)) span k) }
    ensures none { IfNone result (HasNone (λ j. IsTrue (half_at m.now.image m.now.writes j addr == wanted)) span) }
{
    steady_words_stay();
    let mut k = span.last;
    'down: while span.first <= k {
        if half(m, k, addr) == wanted {
            return Some(k);
        }
        let from = m.steady_from(k, addr);
        if from == 0 {
            return None;
        }
        k = from - 1;
    }
    None
}

/// The newest moment of a span at which the halfword stands where a translation led. There is none
/// for `in_vain`, an earlier translation: where it led to the same, nothing is searched again.
fn newest_standing(
    m: &Moments,
    span: Span,
    wanted: u16,
    translated: WalkAnswer,
    in_vain: WalkAnswer,
) -> Option<u32>
    requires within { span.last ≤ length m.now.writes }
    requires leads { LeadsToHalf translated }
    requires in_vain { HasNone (λ j. IsTrue (stands_at m.now.image m.now.writes j wanted in_vain)) span }
    ensures found { IfSome result (λ k. IsNewest (λ j. IsTrue (stands_at m.now.image m.now.writes j wanted translated)) span k) }
    ensures none { IfNone result (HasNone (λ j. IsTrue (stands_at m.now.image m.now.writes j wanted translated)) span) }
{
    if translated == in_vain {
        return None;
    }
    match translated {
        WalkAnswer::Page(addr) => newest_half(m, span, addr, wanted),
        WalkAnswer::PageFault | WalkAnswer::AccessFault => None,
    }
}

/// The moments at which a halfword may have been fetched: the newest moment of the window that
/// translates its address to one at which the halfword stands at some moment of `since`, and then
/// the newest such moment of `since`. None where there are no such two moments, as where either
/// span's first moment is above its last.
pub fn fetch(m: &Moments, window: Span, since: Span, a: WalkArgs, half: u16) -> Option<(u32, u32)>
    requires within { window.last ≤ length m.now.writes }
    requires since_within { since.last ≤ length m.now.writes }
    requires args { CanWalk a }
    requires even { a.va % 2 ≡ 0 }
    ensures value { result ≡ fetch_moments m.now.image m.now.writes window since a half }
    ensures found { IfSome result (λ pair. IsChosen m.now.image m.now.writes window since a half pair.0 pair.1) }
    ensures none { IfNone result (IsNeverFetched m.now.image m.now.writes window since a half) }
{
    let mut in_vain = WalkAnswer::AccessFault;
    let mut moment = window.last;
    'down: while window.first <= moment {
        let translated = fetch_outcome(m, moment, a);
        if let Some(held) = newest_standing(m, since, half, translated, in_vain) {
            return Some((moment, held));
        }
        in_vain = translated;
        let from = steady_walk(m, moment, a);
        if from == 0 {
            return None;
        }
        moment = from - 1;
    }
    None
}
