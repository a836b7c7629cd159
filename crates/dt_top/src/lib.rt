//! The program's calls: from words, an image and a probe file to the status and the text that
//! `difftest` ends with.
#![tactic(auto)]

mod laws;
mod replies;
mod running;
#[cfg(test)]
mod tests;
mod top;
mod workers;

pub use dt_words::{Command, Task, WordsRefusal, parse_words};
pub use laws::{a_run_has_an_answer, a_run_has_one_answer, check_answers_as_pass};
pub use top::{run_check, run_plain};
