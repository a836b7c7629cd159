//! What joined workers come to: the lists that they and the shared record give back are those of a
//! run of the file, and what came of each hart is its judgement on one thread. `conclude` makes the
//! check of it; all else is laws.
#![tactic(auto)]

mod concluding;
mod laws;

pub use concluding::conclude;
pub use laws::{
    concluded_is_checked, joined_harts_are_few, joined_harts_are_judged, joined_lists_are_sound,
    joined_writes_may_be_all, judged_harts_have_runs, one_teller_is_enough,
    own_records_are_counted, untold_is_not_there,
};
