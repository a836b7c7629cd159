//! What a worker takes of one hart's records, and what it tells of them: the writes of the records
//! that are usable, and how far the hart has come.
#![tactic(auto)]

mod fronts;
mod intakes;
mod laws;
mod news;
#[cfg(test)]
mod tests;

pub use intakes::Intake;
pub use laws::{
    file_records_are_usable, news_is_of_one_hart, nothing_is_told, own_notes_decide,
    room_keeps_told, taking_keeps_told, telling_goes_on, told_is_announced, usable_front_grows,
    usable_front_is_longest,
};
