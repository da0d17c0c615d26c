//! Tests of the outside in memory: the public calls of med_mem.
//!
//! The crate has no code of its own. A table is one text: a row a line, a call and its answer with
//! ` => ` between them. Expected values come from the rules, never from a run.
#![tactic(auto)]

#[cfg(test)]
mod memory;
#[cfg(test)]
mod store_faults;
#[cfg(test)]
mod told_faults;
