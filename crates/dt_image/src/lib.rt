//! The memory image that a run begins with, read from a source.
#![tactic(auto)]

mod images;
#[cfg(test)]
mod tests;

pub use dt_record::Image;
pub use images::{ImageRefusal, load};
