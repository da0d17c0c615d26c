//! Tests of the sections of one node: the public calls of med_shelf, over a storage in memory.
//!
//! The crate has no code of its own. Expected values come from the rules, never from a run.
#![tactic(auto)]

#[cfg(test)]
mod claims;
#[cfg(test)]
mod finishes;
#[cfg(test)]
mod places;
#[cfg(test)]
mod snapshot;
