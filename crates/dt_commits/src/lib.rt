//! The checks of commits after those that all instructions share, and of records that show a hart's
//! state. The definitions that the contracts cite stand in `specs/` here and in `dt_rules`.
#![tactic(auto)]

mod fences;
mod states;
#[cfg(test)]
mod tests;
mod values;

pub use dt_rules::Misfit;
pub use fences::undrained;
pub use states::{shows_csrs, shows_registers};
pub use values::commit_value;
