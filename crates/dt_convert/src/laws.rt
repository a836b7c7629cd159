//! Laws of converted files.
ghost use Rattle.std.specs.Prelude.{◌≡◌, ℕ, Bool, List, [], ◌∷◌, ◌++◌, Some, length, map};
ghost use Rattle.dt_record.specs.declared.records.Record.{Record};
ghost use Rattle.dt_record.specs.declared.streams.Next.{Next};
ghost use Rattle.dt_record.specs.declared.streams.Next.TheVariants.{Header, Event, End};
ghost use Rattle.dt_record.specs.Spelling.{Version};
ghost use Rattle.dt_record.specs.ProbeFile.{IsProbeFile};
ghost use Rattle.dt_record.specs.Answers.{AreAnswers};
ghost use Rattle.dt_dump.specs.Dump.{end_of, records_in};
ghost use Rattle.dt_convert.specs.Convert.{converted};

/// A law: where the answers of a file's bytes come to the end, what they are converted to is a probe
/// file of the version asked for, with the same header and the same records.
pub fn converted_is_a_file()
    ensures { (bytes : List ℕ) (answers : List Next) (count : ℕ) → AreAnswers bytes answers → end_of answers ≡ Some (End count)
        → (own : Version) × (harts : ℕ) × (wide : Bool) × IsProbeFile bytes own harts wide (records_in answers)
        × ((version : Version) → IsProbeFile (converted version answers) version harts wide (records_in answers)) }
{}

/// A law: the answers of a probe file, converted to whichever version, give the one file of that
/// version with its header and records. So a file that is converted and converted back has the same
/// bytes.
pub fn converts_back()
    ensures { (file other : List ℕ) (version between : Version) (harts : ℕ) (wide : Bool) (records : List Record)
        → IsProbeFile file version harts wide records → IsProbeFile other between harts wide records
        → AreAnswers other (Header harts wide ∷ map (λ r. Event r) records ++ End (length records) ∷ [])
        × (converted version (Header harts wide ∷ map (λ r. Event r) records ++ End (length records) ∷ []) ≡ file) }
{}
