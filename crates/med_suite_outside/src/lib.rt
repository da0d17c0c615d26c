//! Tests of storages: the one suite of both, and what is a storage's of folders alone.
//!
//! The crate has no code of its own. A table is one text: a row a line, a call and its answer with
//! ` => ` between them. Expected values come from the rules, never from a run.
#![tactic(auto)]

#[cfg(test)]
use med_suite_rows::{calls, places};

#[cfg(test)]
mod clocks;
#[cfg(test)]
mod folders;
#[cfg(test)]
mod listings;
#[cfg(test)]
mod notes;
#[cfg(test)]
mod storages;
#[cfg(test)]
mod writing;
