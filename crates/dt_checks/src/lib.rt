//! What records of several kinds are checked for: the pc, the fetch of an instruction, that it can
//! retire in a record of its kind, and the physical address of an access. Each check gives what the
//! later ones need, or why the record is not allowed.
#![tactic(auto)]

mod addresses;
mod fetching;
mod laws;
mod retiring;
mod starting;
#[cfg(test)]
mod tests;

pub use addresses::address;
pub use fetching::{FetchSpans, fetched, half_fetched, is_older};
pub use laws::first_writes_decide_checks;
pub use retiring::retires;
pub use starting::{Started, start};
