ghost use Rattle.std.specs.Prelude.{◌≡◌, ◌≤◌, ◌%◌, length};
ghost use Rattle.dt_step.specs.State.{IsArch};
ghost use Rattle.dt_checks.specs.Fetching.{SpansEndWithin, fetch_check, half_check, is_older, second_check};

use dt_access::walk_args;
use dt_rules::{Misfit, Reason};
use dt_step::Arch;
use dt_translate::fetch;
use dt_versions::{Moments, Span};
use dt_walk::Access;

/// The moments of an instruction's fetch. Each span begins where a fence of the hart last ended what
/// is older, and ends at the last moment that the record may see.
#[derive(Clone, Copy, Debug, PartialEq, Eq)]
pub struct FetchSpans {
    /// The moments whose page tables may translate the address of the first halfword.
    pub first: Span,
    /// The same for the second halfword, which may lie in another page.
    pub second: Span,
    /// The moments whose memory may give the halfwords.
    pub since: Span,
}

/// Whether a moment of a span is not its last.
pub fn is_older(span: Span, k: u32) -> bool
    ensures { result ≡ is_older span k }
{
    k != span.last
}

/// Whether the halfword at the virtual address comes by an older translation or from older memory:
/// the moment chosen from the window, or that from `since`, is not the last there. A misfit is of
/// Fetch: it expects the virtual address, and found is the halfword that no moment gives.
pub fn half_fetched(
    m: &Moments,
    window: Span,
    since: Span,
    a: &Arch,
    va: u64,
    half: u16,
) -> Result<bool, Misfit>
    requires window { window.last ≤ length m.now.writes }
    requires since { since.last ≤ length m.now.writes }
    requires arch { IsArch a.now }
    requires even { va % 2 ≡ 0 }
    ensures { result ≡ half_check m.now.image m.now.writes window since a.now va half }
{
    match fetch(m, window, since, walk_args(a, Access::Fetch, va), half) {
        Some((translated, held)) => Ok(is_older(window, translated) || is_older(since, held)),
        None => Err(Misfit {
            reason: Reason::Fetch,
            expected: va,
            found: u64::from(half),
        }),
    }
}

/// The second halfword of a 32-bit instruction, where it is known of the first whether it is older.
fn second_fetched(
    m: &Moments,
    spans: FetchSpans,
    a: &Arch,
    bits: u32,
    older: bool,
) -> Result<bool, Misfit>
    requires spans { SpansEndWithin spans (length m.now.writes) }
    requires arch { IsArch a.now }
    requires even { a.now.pc % 2 ≡ 0 }
    ensures { result ≡ second_check m.now.image m.now.writes spans a.now bits older }
{
    let va = a.pc.wrapping_add(2);
    let half = (bits >> 16) as u16;
    let second = half_fetched(m, spans.second, spans.since, a, va, half)?;
    Ok(older || second)
}

/// Whether any halfword of the instruction at the pc comes by an older translation or from older
/// memory. An instruction of 16 bits has an upper half of zero. A misfit is that of the first
/// halfword which no moment gives (`half_fetched`).
pub fn fetched(m: &Moments, spans: FetchSpans, a: &Arch, bits: u32) -> Result<bool, Misfit>
    requires spans { SpansEndWithin spans (length m.now.writes) }
    requires arch { IsArch a.now }
    requires even { a.now.pc % 2 ≡ 0 }
    ensures { result ≡ fetch_check m.now.image m.now.writes spans a.now bits }
{
    let half = (bits % 0x1_0000) as u16;
    let older = half_fetched(m, spans.first, spans.since, a, a.pc, half)?;
    if bits % 4 == 3 {
        second_fetched(m, spans, a, bits, older)
    } else {
        Ok(older)
    }
}
