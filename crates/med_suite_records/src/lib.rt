//! Tests of manifests and token maps: the public calls of med_manifest and med_ring.
//!
//! The crate has no code of its own. A table is one text: a row a line, its cell and the answer
//! divided by ` => `, with `¶` for a line feed. The cell stands in a text in the place of `$`.
//! Expected values come from the rules, never from a run.
#![tactic(auto)]

#[cfg(test)]
mod answers;
#[cfg(test)]
mod faults;
#[cfg(test)]
mod read;
#[cfg(test)]
mod rings;
#[cfg(test)]
mod written;
