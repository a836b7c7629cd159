ghost use Rattle.std.specs.Prelude.{◌≡◌, ◌+◌, ◌<◌, ◌≤◌, None};
ghost use Rattle.dt_record.specs.declared.limits.TheConstants.{RECORD_LIMIT};
ghost use Rattle.dt_record.specs.Lawful.{IsLawful};
ghost use Rattle.dt_record.specs.Lent.{record_of};
ghost use Rattle.dt_hart.specs.Settings.{Setting};
ghost use Rattle.dt_judge.specs.Judging.{GoesOnBy, IsJudged, Meets, OnFine, UnlessFine};

use crate::findings::finding;
use crate::spans::seen_by;
use dt_atomics::first_writes_decide_atomics;
use dt_checks::first_writes_decide_checks;
use dt_hart::{Findings, Hart, fences_are_earlier, known_at_next};
use dt_record::{Key, Record, RecordAt};
use dt_refills::first_writes_decide_refills;
use dt_rules::{Letters, Reason};
use dt_sources::Sources;
use dt_traps::first_writes_decide_traps;
use dt_versions::Moments;
use dt_windows::last_fences_are_below;

/// What the judge says of a record.
#[derive(Clone, Copy, Debug, PartialEq, Eq)]
pub enum Judged {
    /// The record is allowed. The sources have the count 0 where nothing was read from RAM.
    Fine {
        letters: Letters,
        sources: Sources,
    },
    /// The first check that the record fails.
    Fail {
        reason: Reason,
        expected: u64,
        found: u64,
    },
    /// Memory was refused, so nothing is said of the record.
    OutOfMemory,
}

/// Judges the hart's next record over the writes that the moments hold, and takes it where it is
/// allowed. After `Fail` and `OutOfMemory` the hart is as it was before, and the moments never
/// change.
///
/// The answer is the judgement of the file (`Meets`) where the hart has taken the file's records of
/// its number before this one, and the moments hold every write of the file up to the record's
/// cycle. They may hold later ones too, as long as they are the first writes of the file.
pub fn judge(h: &mut Hart, m: &Moments, event: &Record) -> Judged
    requires lawful { IsLawful event.now }
    requires its { event.now.hart ≡ h.old.arch.hart }
    requires in_time { h.old.stamp ≤ event.now.stamp }
    requires room { h.old.seq < RECORD_LIMIT }
    ensures judged { (s : Setting) → Meets h.old m.now s event.now → IsJudged s event.now result }
    ensures goes_on { OnFine result (λ letters sources. (s : Setting) → Meets h.old m.now s event.now
        → GoesOnBy h.new s event.now sources) }
    ensures counted { OnFine result (λ letters sources. h.new.seq ≡ h.old.seq + 1) }
    ensures stamp { OnFine result (λ letters sources. h.new.stamp ≡ event.now.stamp) }
    ensures number { h.new.arch.hart ≡ h.old.arch.hart }
    ensures unchanged { UnlessFine result (h.new ≡ h.old) }
{
    judge_at(h, m, &event.lent())
}

/// The same of a record whose long fields are lent.
pub fn judge_at(h: &mut Hart, m: &Moments, event: &RecordAt<'_>) -> Judged
    requires lawful { IsLawful (record_of event.now) }
    requires its { event.now.hart ≡ h.old.arch.hart }
    requires in_time { h.old.stamp ≤ event.now.stamp }
    requires room { h.old.seq < RECORD_LIMIT }
    ensures judged { (s : Setting) → Meets h.old m.now s (record_of event.now) → IsJudged s (record_of event.now) result }
    ensures goes_on { OnFine result (λ letters sources. (s : Setting) → Meets h.old m.now s (record_of event.now)
        → GoesOnBy h.new s (record_of event.now) sources) }
    ensures counted { OnFine result (λ letters sources. h.new.seq ≡ h.old.seq + 1) }
    ensures stamp { OnFine result (λ letters sources. h.new.stamp ≡ event.now.stamp) }
    ensures number { h.new.arch.hart ≡ h.old.arch.hart }
    ensures unchanged { UnlessFine result (h.new ≡ h.old) }
{
    judge_record(h, m, &event.record())
}

fn judge_record(h: &mut Hart, m: &Moments, event: &Record) -> Judged
    requires lawful { IsLawful event.now }
    requires its { event.now.hart ≡ h.old.arch.hart }
    requires in_time { h.old.stamp ≤ event.now.stamp }
    requires room { h.old.seq < RECORD_LIMIT }
    ensures judged { (s : Setting) → Meets h.old m.now s event.now → IsJudged s event.now result }
    ensures goes_on { OnFine result (λ letters sources. (s : Setting) → Meets h.old m.now s event.now
        → GoesOnBy h.new s event.now sources) }
    ensures counted { OnFine result (λ letters sources. h.new.seq ≡ h.old.seq + 1) }
    ensures stamp { OnFine result (λ letters sources. h.new.stamp ≡ event.now.stamp) }
    ensures number { h.new.arch.hart ≡ h.old.arch.hart }
    ensures unchanged { UnlessFine result (h.new ≡ h.old) }
{
    known_at_next();
    fences_are_earlier();
    last_fences_are_below();
    first_writes_decide_atomics();
    first_writes_decide_checks();
    first_writes_decide_refills();
    first_writes_decide_traps();
    let key = Key {
        stamp: event.stamp,
        hart: event.hart,
        seq: h.seq(),
    };
    let seen = seen_by(m, key);
    match finding(h, m, seen, key, event) {
        Ok(passed) => match h.take_at(&event.lent(), found(key, passed.sources)) {
            Ok(()) => Judged::Fine {
                letters: passed.letters,
                sources: passed.sources,
            },
            Err(_) => Judged::OutOfMemory,
        },
        Err(refused) => Judged::Fail {
            reason: refused.reason,
            expected: refused.expected,
            found: refused.found,
        },
    }
}

/// What is told to the hart of an allowed record with this key. The hart plans its instruction again.
fn found(key: Key, sources: Sources) -> Findings
    ensures { result ≡ record { key = key; plan = None; sources = sources } }
{
    Findings {
        key,
        plan: None,
        sources,
    }
}
