//! Where the bytes of a load come from: the least moment of memory that gives the loaded value and
//! does not go back behind what the hart has seen, and the law that this least choice, load after
//! load, is the least of all fitting assignments. The definitions that the contracts cite stand in
//! `specs/` here and in `dt_record`.
#![tactic(auto)]

mod finding;
mod laws;
#[cfg(test)]
mod tests;
mod tries;

pub use dt_record::{LoadAsk, Origin, Sources};
pub use finding::{Found, find};
pub use laws::{
    fronts_have_sources, knowing_goes_on, known_fit_is_fit, known_is_floor, least_choice_goes_on,
    least_choice_is_least, notes_are_added, reads_at_keys_fit, refusal_is_exact,
};
