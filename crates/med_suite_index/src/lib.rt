//! Tests of the index of backups: the public calls of med_index, over a storage in memory.
//!
//! The crate has no code of its own. Expected values come from the rules, never from a run.
#![tactic(auto)]

#[cfg(test)]
mod entries;
#[cfg(test)]
mod mend;
#[cfg(test)]
mod rebuild;
#[cfg(test)]
mod rows;
