//! The stream of probe records into queues, one for each hart, and the end of the feed behind them.
#![tactic(auto)]

mod feeding;
mod laws;
#[cfg(test)]
mod tests;

pub use feeding::{FeedEnd, feed};
pub use laws::{popped_end_means_all, whole_feed_ends_all};
