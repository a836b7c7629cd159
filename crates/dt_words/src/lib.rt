//! The words of the command line: which command they name, and what it is to work on.
#![tactic(auto)]

mod commands;
#[cfg(test)]
mod tests;
mod words;

pub use commands::{Command, Task, WordsRefusal};
pub use words::parse_words;
