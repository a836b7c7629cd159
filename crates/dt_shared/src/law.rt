//! The rule of the table, and what each step tells.
use crate::entries::Entry;
use crate::views::View;
use atomic_table::{Join, Play, Seat, Shared, Split, TableRule};

/// The number of tickets that were drawn.
pub(crate) const TICKET: usize = 0;

/// The number of tickets that were served.
pub(crate) const SERVING: usize = 1;

/// The number of entries of the history.
pub(crate) const COUNT: usize = 2;

/// Not 0 once a pass has stopped.
pub(crate) const HALT: usize = 3;

/// The table as threads share it. Its key is the number of passes.
pub(crate) type Board = Shared<Vec<Entry>, View, u8, OneHistory>;

/// A place at the table, which steps on it.
pub(crate) type Place = Seat<Vec<Entry>, View>;

pub struct OneHistory;

impl TableRule<Vec<Entry>, View, u8> for OneHistory {
    ghost use Rattle.std.specs.Prelude.{[], ◌∷◌};
    ghost use Rattle.dt_shared.specs.Views.{newcomer, at_rest};
    ghost use Rattle.dt_shared.specs.Moments.{Holds};

    ghost holds = { Holds };

    ghost first = { λ most. at_rest (newcomer 0 ∷ []) 1 };
}

/// A seat draws a ticket.
pub(crate) struct Draw;

impl Play<Vec<Entry>, View> for Draw {
    ghost use Rattle.dt_shared.specs.Steps.{Draws};

    ghost then = { λ _. Draws };
}

/// A seat reads which ticket is served, and takes the slot where it is its own.
pub(crate) struct Come;

impl Play<Vec<Entry>, View> for Come {
    ghost use Rattle.dt_shared.specs.Steps.{Comes};

    ghost then = { λ _. Comes };
}

/// What was added to the list becomes part of the history.
pub(crate) struct Publish;

impl Play<Vec<Entry>, View> for Publish {
    ghost use Rattle.dt_shared.specs.Steps.{Publishes};

    ghost then = { λ _. Publishes };
}

/// The history is seen.
pub(crate) struct Look;

impl Play<Vec<Entry>, View> for Look {
    ghost use Rattle.dt_shared.specs.Steps.{Looks};

    ghost then = { λ _. Looks };
}

/// The slot is given back, and the next ticket is served.
pub(crate) struct Leave;

impl Play<Vec<Entry>, View> for Leave {
    ghost use Rattle.dt_shared.specs.Steps.{Leaves};

    ghost then = { λ _. Leaves };
}

/// A pass stops.
pub(crate) struct Stop;

impl Play<Vec<Entry>, View> for Stop {
    ghost use Rattle.dt_shared.specs.Steps.{Stops};

    ghost then = { λ _. Stops };
}

/// A pass asks whether one has stopped.
pub(crate) struct Ask;

impl Play<Vec<Entry>, View> for Ask {
    ghost use Rattle.dt_shared.specs.Steps.{Asks};

    ghost then = { λ _. Asks };
}

/// A pass is cut from the view of the first.
pub(crate) struct Make;

impl Split<View> for Make {
    ghost use Rattle.dt_shared.specs.Steps.{maker, made_pass};

    ghost left = { maker };

    ghost right = { made_pass };
}

/// A pass is given back to another.
pub(crate) struct GiveBack;

impl Join<View> for GiveBack {
    ghost use Rattle.dt_shared.specs.Steps.{joined, spent};

    ghost both = { joined };

    ghost spent = { spent };
}
