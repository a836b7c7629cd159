ghost use Rattle.dt_record.specs.Actions.{UndrainedWait};
ghost use Rattle.dt_record.specs.Filling.{AnswersGoOn, RecordsAreCounted, TakenAnswersGoOn, TakenRecordsWereLeft};
ghost use Rattle.dt_record.specs.Keys.{KeysAreInOrder};
ghost use Rattle.dt_record.specs.Marks.{JudgedIsPassed, PassedGoesOn};

/// What notes say of a cycle that each hart has passed stays true whatever notes follow.
pub fn passed_goes_on()
    ensures { PassedGoesOn }
{}

/// A record that may be judged by the first notes of a history has been passed by the whole of it.
pub fn judged_is_passed()
    ensures { JudgedIsPassed }
{}

/// What answers of a stream tell, and further ones after them, is what all of them tell; and they are
/// the first of those that were left, where the stream tells these.
pub fn answers_go_on()
    ensures told { AnswersGoOn }
    ensures taken { TakenAnswersGoOn }
{}

/// Records that a stream has given are counted within the limits, and were the first that it had left.
pub fn records_are_counted()
    ensures counted { RecordsAreCounted }
    ensures left { TakenRecordsWereLeft }
{}

/// In a cycle that no drain is after, the undrained stores are those that wait.
pub fn undrained_wait()
    ensures { UndrainedWait }
{}

/// Keys are in a strict total order, in which the cycle decides first.
pub fn keys_are_in_order()
    ensures { KeysAreInOrder }
{}
