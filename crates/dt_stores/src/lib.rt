//! The store buffer of one hart: its stores to RAM in their order, the fences between them, and
//! which drain has taken which. The definitions that the contracts cite stand in `specs/` here and
//! in `dt_record`. All stores stay in one list. Their places are listed by line, and the first that
//! waits is kept, so that no search passes the stores that are drained.
#![tactic(auto)]

mod answers;
mod buffer;
mod copies;
mod drains;
mod entries;
mod late;
mod laws;
mod lines;
mod searches;
mod steps;
#[cfg(test)]
mod tests;
mod undoing;

pub use answers::{DrainAnswer, Forward, Which};
pub use buffer::{Mark, Stores};
pub use dt_record::OwnStore;
pub use laws::{
    atomics_keep_stores, drains_stay_below, loads_keep_stores, marks_stay_live, stores_go_on,
};
