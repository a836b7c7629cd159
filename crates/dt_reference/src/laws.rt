//! Laws of the definitions: each function's contract is the law, and its body is empty.
ghost use Rattle.std.specs.Prelude.{◌≡◌, ℕ, Bool, List, [], ◌∷◌, ◌++◌, length, option_to_list};
ghost use Rattle.dt_record.specs.declared.records.Record.{Record};
ghost use Rattle.dt_reference.specs.HartActions.{action_of, actions_of};
ghost use Rattle.dt_reference.specs.Run.{after_record, state_after};

/// The actions of a hart's records go on with those of the next one.
pub fn actions_go_on()
    ensures { (records : List Record) (r : Record)
        → actions_of (records ++ r ∷ []) ≡ actions_of records ++ option_to_list (action_of (length records) r) }
{}

/// The state of a hart goes on by its next record.
pub fn state_goes_on()
    ensures { (hart : ℕ) (wide : Bool) (records : List Record) (r : Record)
        → state_after hart wide (records ++ r ∷ []) ≡ after_record (state_after hart wide records) r }
{}
