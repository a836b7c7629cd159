//! Laws of the spellings of version 2, for whoever reads many of them one after another.

ghost use Rattle.std.specs.Prelude.{◌≡◌, ◌≤◌, ℕ, List, [], ◌∷◌, ◌++◌, length, take};
ghost use Rattle.dt_record.specs.declared.records.Record.{Record};
ghost use Rattle.dt_record.specs.Lawful.{IsLawful};
ghost use Rattle.dt_record.specs.Spelling.{short_bytes};
ghost use Rattle.dt_record.specs.Tags.{tag_number};
ghost use Rattle.dt_short_bytes.specs.ShortForms.{MayFollow, IsGot};

use dt_record::Record;
use dt_record_bytes::fits;

/// No spelling begins another, so at most one record stands at the front of some bytes.
pub fn one_short_spelling()
    ensures { (last : ℕ) (r s : Record) (p q : List ℕ) → MayFollow last r → MayFollow last s
        → short_bytes last r ++ p ≡ short_bytes last s ++ q → (r ≡ s) × (p ≡ q) }
{}

/// A spelling begins with the record's tag and its hart, whatever the last stamp is.
pub fn short_front()
    ensures { (last : ℕ) (r : Record) → take 2 (short_bytes last r) ≡ tag_number r.body ∷ r.hart ∷ [] }
{}

/// What `encode2` writes is read back, whatever follows it.
pub fn short_read_back(event: &Record, last: u64)
    requires lawful { IsLawful event.now }
    requires stamp { last ≤ event.now.stamp }
    ensures { (rest : List ℕ) → IsGot last (short_bytes last event.now ++ rest) event.now (length (short_bytes last event.now)) }
{
    fits(event);
}
