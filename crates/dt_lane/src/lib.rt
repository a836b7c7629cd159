//! One hart in the hands of its worker, without threads: the end of its queue, what was taken and told
//! of it, and how far it was judged.
#![tactic(auto)]

mod ends;
mod lanes;
#[cfg(test)]
mod tests;

pub use ends::HartEnd;
pub use lanes::Lane;
