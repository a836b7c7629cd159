//! A table test of `dt_versions` and `dt_translate`, in a crate of its own since tests are proved
//! too: on random short lists of writes, what is found by halving and by stretches is compared with
//! what plain searches through all writes and all moments find. And over half a million writes, these
//! and `find` of `dt_sources` are asked a hundred thousand times each.
#![tactic(auto)]

#[cfg(test)]
mod loads;
#[cfg(test)]
mod plain;
#[cfg(test)]
mod tests;
#[cfg(test)]
mod translations;
#[cfg(test)]
mod writes;
