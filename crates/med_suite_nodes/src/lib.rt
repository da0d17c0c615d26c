//! Tests of snapshots of nodes, of files by name and of sinks, in memory and as real ones.
//!
//! The crate has no code of its own. A table is one text: a row a line, a call and its answer with
//! ` => ` between them. Expected values come from the rules, never from a run.
#![tactic(auto)]

#[cfg(test)]
mod names;
#[cfg(test)]
mod node_folders;
#[cfg(test)]
mod sinks;
#[cfg(test)]
mod snapshots;
