//! The news of all lanes in one append.
ghost use Rattle.std.specs.Prelude.{◌≡◌, ◌++◌, [], OnOk, OnErr};
ghost use Rattle.std.specs.List.{flat_map};
ghost use mathlib.Core.List.{IsPrefix};
ghost use Rattle.dt_shared.specs.Records.{identity};
ghost use Rattle.dt_worker.specs.Steps.{EachGoes, IsInStep};
ghost use Rattle.dt_worker.specs.Telling.{news_in, Tells};

use dt_intake::{news_is_of_one_hart, own_notes_decide, telling_goes_on};
use dt_lane::Lane;
use dt_record::Note;
use dt_shared::{Pass, SharedRecord};
use std::alloc::AllocError;
use std::sync::Wait;

/// Puts the news of all lanes behind the notes.
fn collect_news(lanes: &[Lane], notes: &mut Vec<Note>) -> Result<(), AllocError>
    ensures { OnOk result (notes.new.items ≡ notes.old.items ++ flat_map news_in lanes.now) }
{
    for lane in lanes {
        if lane.has_news() {
            lane.add_news(notes)?;
        }
    }
    Ok(())
}

/// Every lane with news has told it.
fn note_all_told(lanes: &mut Vec<Lane>)
    ensures { EachGoes Tells lanes.old.items lanes.new.items }
{
    for lane in lanes.iter_mut() {
        if lane.has_news() {
            lane.note_told();
        }
    }
}

/// Appends the notes, all at once. It answers whether there is one; else nothing is appended.
fn append_some<R: Wait>(
    rt: &R,
    shared: &SharedRecord,
    pass: &mut Pass,
    notes: &mut Vec<Note>,
) -> Result<bool, AllocError>
    requires of_this { pass.old.of ≡ identity shared.now }
    ensures own { OnOk result (pass.new.own ≡ pass.old.own ++ notes.old.items) }
    ensures seen { IsPrefix pass.old.seen pass.new.seen }
    ensures same { pass.new ≡ record pass.old { seen = pass.new.seen; own = pass.new.own } }
    ensures quiet { notes.old.items ≡ [] → pass.new ≡ pass.old }
    ensures err { OnErr result (pass.new ≡ pass.old) }
{
    if notes.is_empty() {
        return Ok(false);
    }
    shared.append(rt, pass, notes)?;
    Ok(true)
}

/// Appends the news of all lanes, all at once. It answers whether there was some; else nothing is
/// appended.
pub(crate) fn announce<R: Wait>(
    rt: &R,
    shared: &SharedRecord,
    pass: &mut Pass,
    lanes: &mut Vec<Lane>,
    news: &mut Vec<Note>,
) -> Result<bool, AllocError>
    requires of_this { pass.old.of ≡ identity shared.now }
    ensures own { OnOk result (pass.new.own ≡ pass.old.own ++ flat_map news_in lanes.old.items) }
    ensures lanes { OnOk result (EachGoes Tells lanes.old.items lanes.new.items) }
    ensures in_step { IsInStep lanes.old.items pass.old.own → IsInStep lanes.new.items pass.new.own }
    ensures seen { IsPrefix pass.old.seen pass.new.seen }
    ensures quiet { flat_map news_in lanes.old.items ≡ [] → pass.new ≡ pass.old }
    ensures same { pass.new ≡ record pass.old { seen = pass.new.seen; own = pass.new.own } }
    ensures err { OnErr result ((pass.new ≡ pass.old) × (lanes.new.items ≡ lanes.old.items)) }
{
    telling_goes_on();
    own_notes_decide();
    news_is_of_one_hart();
    news.clear();
    collect_news(lanes, news)?;
    let some = append_some(rt, shared, pass, news)?;
    note_all_told(lanes);
    Ok(some)
}
