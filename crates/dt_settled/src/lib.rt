//! What a worker knows of the writes of all harts: those that no hart can precede any more, as
//! memory over time, and those that were announced and wait.
#![tactic(auto)]

mod laws;
mod settling;
#[cfg(test)]
mod tests;
mod waiting;

pub use laws::{
    all_writes_are_promised, early_writes_have_settled, file_writes_are_told,
    file_writes_may_be_all, fronts_tell_all_writes, orderly_writes_may_be_all, seeing_goes_on,
    seeing_starts, sound_notes_are_apart,
};
pub use settling::Settled;
