//! What a report counts and names: how many records of each kind a hart has below the failing one,
//! and the notes of all harts by key.
#![tactic(auto)]

mod counting;
mod naming;
#[cfg(test)]
mod tests;

pub use counting::count;
pub use naming::{is_named, named};
