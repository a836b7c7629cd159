ghost use Rattle.std.specs.Prelude.{◌≡◌, ℕ};
ghost use Rattle.dt_shared.specs.declared.views.Known.{Known};
ghost use Rattle.dt_shared.specs.Passes.{pass_state};
ghost use Rattle.dt_shared.specs.Turns.{Rests};

use crate::law::Place;
use std::marker::Model;

/// The right of one worker to append to a shared record and to look at it. It may move to another
/// thread.
#[derive(Drop)]
pub struct Pass {
    pub(crate) number: u8,
    pub(crate) seat: Place,
}

impl Model for Pass {
    ghost use Rattle.dt_shared.specs.Passes.{PassState, pass_state, first_known, SeatStands};

    ghost Value = { PassState };

    ghost view = { λ p. pass_state p.seat.table_id (first_known p.seat.me.0.passes) };

    ghost invariant = { λ p. SeatStands p.number p.seat.me };
}

impl Pass {
    /// The seat of the pass, with all that the pass knows.
    pub(crate) fn into_seat(self) -> Place
        ensures table { result.table_id ≡ self.of }
        ensures known { (k : Known) × (made : ℕ)
            × Rests k made result.me × (pass_state result.table_id k ≡ self) }
    {
        let Pass { number: _, seat } = self;
        seat
    }
}
