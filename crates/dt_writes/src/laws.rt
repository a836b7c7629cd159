//! Laws of the definitions, for the crates above. The functions do nothing.
ghost use Rattle.dt_writes.specs.KeyOrder.{StableSortsAreOne};
ghost use Rattle.dt_writes.specs.Laws.{FileHistoryIsKept, OwnWritesAreOfRecords, WritesStandInOrder};

/// The writes of one hart among those of a file are the writes of the hart's records.
pub fn own_writes_are_of_records()
    ensures { OwnWritesAreOfRecords }
{}

/// The writes of records stand in the order of their keys, and no two have the same key.
pub fn writes_stand_in_order()
    ensures { WritesStandInOrder }
{}

/// The writes of a file's records can be held over any image, all of them.
pub fn file_history_is_kept()
    ensures { FileHistoryIsKept }
{}

/// A list whose keys do not fall, and in which the elements of each key stand as in a given one, is
/// what a stable sort by key makes of the given one.
pub fn stable_sorts_are_one<T>()
    ensures { StableSortsAreOne T }
{}
