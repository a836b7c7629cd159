//! The state of one hart while its records are judged: what its records so far leave, and how it
//! goes on by a next record that is allowed. Whether a record is allowed is not asked here. The
//! definitions that the contracts cite stand in `specs/`.
#![tactic(auto)]

mod accesses;
mod atomics;
mod effects;
mod found;
mod harts;
mod known;
mod laws;
mod marks;
mod notes;
mod pages;
mod places;
mod replays;
mod states;
#[cfg(test)]
mod tests;

pub use found::Findings;
pub use harts::Hart;
pub use laws::{fences_are_earlier, harts_are_of_their_settings, known_at_next};
pub use marks::{HartMark, marks_go_on};
pub use places::is_placed;
