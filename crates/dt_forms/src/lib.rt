//! The law that joins the expander of 16-bit instructions with the decoder of 32-bit ones.
#![tactic(auto)]

mod laws;

pub use laws::expansions_are_decoded;
