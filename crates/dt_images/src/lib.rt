//! The two images that the program makes itself: one of random instructions, and one of harts that
//! share a lock. The definitions that the contracts cite stand in `specs/`.
#![tactic(auto)]

mod instructions;
mod random;
mod spin;
#[cfg(test)]
mod tests;
mod words;

pub use random::random_image;
pub use spin::spin_image;
