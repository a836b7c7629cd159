ghost use Rattle.std.specs.Prelude.{ℕ, Bool, [], ◌∷◌};
ghost use Rattle.dt_record.specs.declared.keys.Key.{Key};
ghost use Rattle.dt_record.specs.declared.accesses.LoadAsk.{LoadAsk};
ghost use Rattle.dt_record.specs.Actions.{Loaded, Atomic};
ghost use Rattle.dt_stores.specs.GoingOn.{DrainsStayBelow, StoresGoOn};
ghost use Rattle.dt_stores.specs.Kept.{Kept};
ghost use Rattle.dt_stores.specs.Marks.{MarksStayLive};
ghost use Rattle.dt_stores.specs.Standing.{GainsAction};

/// A law: what stands for some actions stands for them and a load.
pub fn loads_keep_stores()
    ensures { (kept : Kept) (ask : LoadAsk) → GainsAction kept kept (Loaded ask) }
{}

/// A law: what stands for some actions stands for them and an atomic.
pub fn atomics_keep_stores()
    ensures { (kept : Kept) (key : Key) (addr width : ℕ) (reads acquires : Bool)
        → GainsAction kept kept (Atomic key addr width reads acquires) }
{}

/// A law: a store comes last, a drain takes the first that wait on its line, and any other action
/// leaves the stores of a hart.
pub fn stores_go_on()
    ensures { StoresGoOn }
{}

/// A law: a key above those of all drains of a hart stays so, where it is above that of the next.
pub fn drains_stay_below()
    ensures { DrainsStayBelow }
{}

/// A law: what is undone to, or forgotten before, leaves the marks on its other side as they were.
pub fn marks_stay_live()
    ensures { MarksStayLive }
{}
