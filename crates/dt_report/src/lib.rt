//! The report of a check: the verdict, what was counted, and where loads have their bytes from. Other
//! text may stand before it and behind it.
#![tactic(auto)]

mod lines;
mod notes;
mod reports;
#[cfg(test)]
mod tests;
mod texts;

pub use lines::put_failed;
pub use reports::{report, report_behind};
pub use texts::Text;
