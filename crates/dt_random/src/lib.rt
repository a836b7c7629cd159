//! Draws of numbers that look random and that a seed decides: the same seed gives the same draws on
//! every machine.
#![tactic(auto)]

mod draws;
#[cfg(test)]
mod tests;

pub use draws::Draws;
