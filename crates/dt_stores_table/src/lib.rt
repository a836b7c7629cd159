//! A table test of `dt_stores`, in a crate of its own since tests are proved too: on random short
//! runs of stores, fences and drains, what is found by places, lines and marks is compared with what
//! plain searches through the list of all stores find.
#![tactic(auto)]

#[cfg(test)]
mod plain;
#[cfg(test)]
mod runs;
#[cfg(test)]
mod tests;
