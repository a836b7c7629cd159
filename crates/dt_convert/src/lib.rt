//! The command `convert`: a probe file with the header and the records of a stream, in the version
//! that is asked for.
#![tactic(auto)]

mod converting;
mod laws;
mod pieces;
mod versions;

pub use converting::convert_probes;
pub use laws::{converted_is_a_file, converts_back};
pub use versions::FileVersion;
