//! Version 2 of the bytes of one probe record: its spelling, and what bytes spell. Numbers stand in
//! groups of seven bits, and those that are 0 are left out.
#![tactic(auto)]

mod short;
mod short_bodies;
mod short_kinds;
mod short_laws;
mod short_pieces;
#[cfg(test)]
mod short_tests;
mod varints;

pub use short::{LONGEST_FORM, decode2, encode2};
pub use short_laws::{one_short_spelling, short_front, short_read_back};
