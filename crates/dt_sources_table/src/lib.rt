//! A table test of `dt_sources`, in a crate of its own since tests are proved too: on random short
//! runs, the moments that `find` gives load after load, with what local memory notes, are compared
//! with the least of all assignments that fit, found by trying them all.
#![tactic(auto)]

#[cfg(test)]
mod assignments;
#[cfg(test)]
mod choices;
#[cfg(test)]
mod runs;
#[cfg(test)]
mod tests;
