//! Version 1 of the bytes of one probe record: its spelling, and what bytes spell. Each field is
//! spelled in its full width.
#![tactic(auto)]

mod decoded;
#[cfg(test)]
mod tests;
mod wide;
mod wide_bounds;
mod wide_laws;
mod wide_reading;
mod wide_writing;

pub use decoded::Decoded;
pub use wide::{decode, encode};
pub use wide_laws::{fits, one_spelling, read_back};
