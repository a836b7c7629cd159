//! The line of text that stands for a probe record: what `dump` prints, and what a trace shows. Its
//! pieces are there for other texts.
#![tactic(auto)]

mod fields;
mod lines;
mod printed;

pub use fields::{put_decimal, put_double, put_key, put_number};
pub use lines::line;
pub use printed::Printed;

#[cfg(test)]
mod tests;
