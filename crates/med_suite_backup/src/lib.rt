//! Tests of the backup of a node over its shelf: snapshots in memory, storages in memory and of folders.
//!
//! The crate has no code of its own. Expected values come from the rules, never from a run.
#![tactic(auto)]

#[cfg(test)]
mod backups;
#[cfg(test)]
mod failures;
#[cfg(test)]
mod folders;
#[cfg(test)]
mod snapshots;
