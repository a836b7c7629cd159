//! Coherence permissions: the file that lists which hart was given which line, what a hart holds of
//! a line after some of its events, and what follows where no event is a violation.
#![tactic(auto)]

mod events;
mod files;
mod holding;
mod laws;
mod perms;
mod pieces;
mod reading;
#[cfg(test)]
mod tests;

pub use events::{Held, PermEvent};
pub use holding::held_after;
pub use laws::exclusive_where_no_violation;
pub use perms::{EVENT_LIMIT, Perms};
pub use reading::{PermsRefusal, read_perms};
