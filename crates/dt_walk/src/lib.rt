//! Address translation: the walk through page tables of three levels (Sv39) or four (Sv48), after
//! The RISC-V Instruction Set Manual, Volume II, 20211203, sections 4.3 to 4.5.
#![tactic(auto)]

mod arguments;
mod entries;
mod leaves;
mod reads;
#[cfg(test)]
mod tests;
mod walks;

pub use arguments::{Access, WalkAnswer, WalkArgs};
pub use leaves::{LeafAnswer, Tables, entry_place, find_leaf, leaf_decides, permits};
pub use reads::{Reads, walk_reads};
pub use walks::{PteReader, reads_decide, walk};
