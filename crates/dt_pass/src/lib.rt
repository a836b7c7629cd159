//! The check of a whole stream of probe records on one thread: each hart's records are judged in
//! their order up to the first that is not allowed, and the least failure is the verdict.
#![tactic(auto)]

mod checking;
mod laws;
mod reading;
mod running;
#[cfg(test)]
mod tests;

pub use checking::{checked, limit_of, pass, pass_behind};
pub use laws::{a_file_has_a_check, a_file_has_one_check, fail_is_first, pass_is_all_allowed};
