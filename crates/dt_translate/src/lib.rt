//! Translation and fetch over a span of moments: which outcomes and which halfwords some moment
//! gives, and the newest moment that does.
#![tactic(auto)]

mod laws;
mod outcomes;
mod searches;
mod tables;
#[cfg(test)]
mod tests;

pub use laws::{a_moment_is_found, first_writes_decide, untranslated_stays};
pub use outcomes::outcome;
pub use searches::{allowed, fetch};
