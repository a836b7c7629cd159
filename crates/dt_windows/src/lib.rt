//! The last fences of a hart, which say from which moments it may translate and fetch. The
//! definitions that the contracts cite stand in `specs/`.
#![tactic(auto)]

mod laws;
mod pages;
mod steps;
#[cfg(test)]
mod tests;
mod windows;

pub use laws::{
    last_fences_are_below, marks_stay_live, other_plans_keep_windows, spans_have_moments,
};
pub use windows::{Mark, Windows};
