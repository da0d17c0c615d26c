//! Tests of removals: the rule of a purge, and the plan of a removal over a storage in memory.
//!
//! The crate has no code of its own. Expected values come from the rules, never from a run.
#![tactic(auto)]

#[cfg(test)]
mod plans;
#[cfg(test)]
mod rules;
