//! The memory over time of a whole probe file: all writes of its records in the order of their
//! keys, over the image.
#![tactic(auto)]

mod histories;
mod laws;
#[cfg(test)]
mod tests;

pub use histories::{moments_of, moments_over};
pub use laws::{
    file_history_is_kept, own_writes_are_of_records, stable_sorts_are_one, writes_stand_in_order,
};
