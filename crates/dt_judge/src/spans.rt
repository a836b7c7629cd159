ghost use Rattle.std.specs.Prelude.{◌≡◌, ◌≤◌, length, IsTrue, OnOk, IfOk};
ghost use Rattle.dt_access.specs.Translating.{walk_args};
ghost use Rattle.dt_checks.specs.Addresses.{IsPlaceOf, address_check};
ghost use Rattle.dt_checks.specs.Retiring.{IsRetired};
ghost use Rattle.dt_checks.specs.Starting.{start_check};
ghost use Rattle.dt_record.specs.Lawful.{is_instruction};
ghost use Rattle.dt_windows.specs.Fences.{first_since};
ghost use Rattle.dt_judge.specs.Keeping.{fetch_kept, trap_kept, window_kept};
ghost use Rattle.dt_judge.specs.Kinds.{seen_by};

use dt_access::walk_args;
use dt_checks::{FetchSpans, Started, address, start};
use dt_hart::Hart;
use dt_record::Key;
use dt_rules::Misfit;
use dt_traps::{TrapSpans, access_address};
use dt_versions::{Moments, Span};
use dt_walk::Access;

/// What a record of a hart is judged by: what is kept of the hart, the memory over time, and the last
/// moment that the record may see.
#[derive(Clone, Copy)]
pub struct Sight<'a> {
    pub hart: &'a Hart,
    pub moments: &'a Moments,
    pub last: u32,
}

/// The moments that a record with this key may see at its stamp.
pub fn seen_by(m: &Moments, key: Key) -> Span
    ensures value { result ≡ seen_by m.now.writes key }
    ensures within { result.last ≤ length m.now.writes }
{
    m.visible(key, key.stamp)
}

/// The least moment that a hart could see at a fence, or the first of all where there was none.
fn first_since(m: &Moments, fence: Option<Key>) -> u32
    ensures { result ≡ first_since m.now.writes fence }
{
    match fence {
        Some(key) => seen_by(m, key).first,
        None => 0,
    }
}

/// The moments up to a last one whose translation of an address the hart may use.
fn window(sight: &Sight<'_>, va: u64) -> Span
    ensures { result ≡ window_kept sight.now.hart.now sight.now.moments.now.writes sight.now.last va }
{
    Span {
        first: first_since(sight.moments, sight.hart.windows().page(va)),
        last: sight.last,
    }
}

/// The moments up to a last one for the halves of the instruction at the hart's pc.
fn fetch_spans(sight: &Sight<'_>) -> FetchSpans
    ensures { result ≡ fetch_kept sight.now.hart.now sight.now.moments.now.writes sight.now.last }
{
    let pc = sight.hart.arch().pc;
    FetchSpans {
        first: window(sight, pc),
        second: window(sight, pc.wrapping_add(2)),
        since: Span {
            first: first_since(sight.moments, sight.hart.windows().instructions()),
            last: sight.last,
        },
    }
}

/// The moments up to a last one for a trap of the instruction with these bits: of its fetch, and of
/// the page that it accesses, or of any page where it accesses none.
pub fn trap_spans(sight: &Sight<'_>, bits: u32) -> TrapSpans
    ensures { result ≡ trap_kept sight.now.hart.now sight.now.moments.now.writes sight.now.last bits }
{
    let va = access_address(sight.hart.arch(), bits).unwrap_or(0);
    TrapSpans {
        fetch: fetch_spans(sight),
        access: window(sight, va),
    }
}

/// The checks that the record of an instruction begins with, where it may see no later moment than
/// this last one.
pub fn started(sight: &Sight<'_>, pc: u64, bits: u32, tag: u8) -> Result<Started, Misfit>
    requires within { sight.now.last ≤ length sight.now.moments.now.writes }
    requires instruction { IsTrue (is_instruction bits) }
    ensures value { result ≡ start_check sight.now.moments.now.image sight.now.moments.now.writes
        (fetch_kept sight.now.hart.now sight.now.moments.now.writes sight.now.last) sight.now.hart.now.arch pc bits tag }
    ensures retired { IfOk result (λ st. IsRetired sight.now.hart.now.arch bits tag st.plan) }
{
    start(
        sight.moments,
        fetch_spans(sight),
        sight.hart.arch(),
        pc,
        bits,
        tag,
    )
}

/// Whether an access may have reached the physical address only by an older translation, where it
/// may see no later moment than this last one. `ram_only` is for atomics.
pub fn accessed(
    sight: &Sight<'_>,
    access: Access,
    ram_only: bool,
    va: u64,
    paddr: u64,
) -> Result<bool, Misfit>
    requires within { sight.now.last ≤ length sight.now.moments.now.writes }
    ensures value { result ≡ address_check sight.now.moments.now.image sight.now.moments.now.writes
        (window_kept sight.now.hart.now sight.now.moments.now.writes sight.now.last va)
        (walk_args sight.now.hart.now.arch access va) ram_only paddr }
    ensures place { OnOk result (IsPlaceOf va ram_only paddr) }
{
    let args = walk_args(sight.hart.arch(), access, va);
    address(sight.moments, window(sight, va), args, ram_only, paddr)
}
