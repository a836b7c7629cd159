//! How what holds of a hart's judged records goes on from record to record: the laws that lead the
//! judgement to what `dt_sources` asks of a hart's actions. The functions do nothing; their contracts
//! are the laws, and the definitions stand in `specs/` here, in `dt_stores` and in `dt_sources`.
#![tactic(auto)]

mod laws;
#[cfg(test)]
mod tests;

pub use laws::{drains_cover_stores, judged_goes_on};
