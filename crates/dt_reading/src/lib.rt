//! How a stream of probe records is read on: what came, what is left, and the header that comes
//! before the records.
#![tactic(auto)]

mod headers;

pub use headers::{StreamHeader, read_header};
