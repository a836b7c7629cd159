//! Memory over time: which byte each moment holds, where it comes from, and which moments a record
//! may see. A moment says how many writes have happened, in the order of their keys.
#![tactic(auto)]

mod chains;
mod laws;
mod moments;
mod reads;
#[cfg(test)]
mod tests;
mod views;
mod words;

pub use laws::{
    later_writes_do_not_count, own_moments_are_visible, sources_rise, steady_words_stay,
    visible_ends_are_extreme, visible_is_interval,
};
pub use moments::{Moments, Span};
