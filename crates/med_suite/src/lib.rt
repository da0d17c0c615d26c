//! Tests that cross crates: the worked rows of the commands over the outside in memory.
//!
//! The crate has no code of its own. Expected texts come from the rules, never from a run.
#![tactic(auto)]

#[cfg(test)]
mod calls;
#[cfg(test)]
mod index;
#[cfg(test)]
mod pieces;
#[cfg(test)]
mod refused;
#[cfg(test)]
mod rows;
#[cfg(test)]
mod said;
#[cfg(test)]
mod storage_faults;
