//! What loads may give: a value from a device, the order of a load from RAM among its hart's fences
//! and stores, and the sources of its bytes. The definitions that the contracts cite stand in `specs/`
//! here and in the crates below.
#![tactic(auto)]

mod checks;
mod laws;
mod reading;
#[cfg(test)]
mod tests;

pub use checks::{device_value, order};
pub use dt_record::{LoadAsk, Sources};
pub use dt_rules::{Misfit, Passed};
pub use laws::{known_keys_are_decided, loads_have_an_answer, loads_have_one_answer};
pub use reading::{is_newer, load_ask, ram_load};
