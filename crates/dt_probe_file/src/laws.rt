//! Laws of the answers that the bytes of a file give.
ghost use Rattle.std.specs.Prelude.{◌≡◌, ℕ, Bool, List, [], ◌∷◌, ◌++◌, length, map};
ghost use Rattle.dt_record.specs.declared.records.Record.{Record};
ghost use Rattle.dt_record.specs.declared.streams.Next.{Next};
ghost use Rattle.dt_record.specs.declared.streams.Next.TheVariants.{Header, Event, End};
ghost use Rattle.dt_record.specs.Spelling.{Version};
ghost use Rattle.dt_record.specs.ProbeFile.{IsProbeFile};
ghost use Rattle.dt_record.specs.Answers.{AreAnswers};
ghost use Rattle.dt_probe_file.specs.Broken.{BrokenFilesAreMalformed, FrontsAreAnswered, LongFilesAreLimited};

/// A law: bytes give exactly one list of answers, whatever they are.
pub fn one_list()
    ensures some { (bytes : List ℕ) → (answers : List Next) × AreAnswers bytes answers }
    ensures one { (bytes : List ℕ) (answers others : List Next)
        → AreAnswers bytes answers → AreAnswers bytes others → answers ≡ others }
{}

/// A law: the bytes of a probe file give its header, its records and its end, and no other bytes
/// give such a list.
pub fn file_answers()
    ensures of_file { (bytes : List ℕ) (version : Version) (harts : ℕ) (wide : Bool) (records : List Record)
        → IsProbeFile bytes version harts wide records
        → AreAnswers bytes (Header harts wide ∷ map (λ r. Event r) records ++ End (length records) ∷ []) }
    ensures of_answers { (bytes : List ℕ) (harts : ℕ) (wide : Bool) (records : List Record) (count : ℕ)
        → AreAnswers bytes (Header harts wide ∷ map (λ r. Event r) records ++ End count ∷ [])
        → (count ≡ length records) × ((version : Version) × IsProbeFile bytes version harts wide records) }
{}

/// A law: the bytes of a file that is broken, or past a limit, give its header, the records before
/// that place, and the offset of that place, or the limit. No other bytes give such a list. What the
/// front of a file gives does not depend on what follows it.
pub fn broken_answers()
    ensures broken { BrokenFilesAreMalformed }
    ensures limited { LongFilesAreLimited }
    ensures fronts { FrontsAreAnswered }
{}
