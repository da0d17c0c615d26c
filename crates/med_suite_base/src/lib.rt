//! Tests of names, paths, digests and JSON values: the public calls of med_base and med_json.
//!
//! The crate has no code of its own. A table is one text: a row a line, its cells divided by bars,
//! with `¶` for a line feed within a cell. Expected values come from the rules, never from a run.
#![tactic(auto)]

#[cfg(test)]
mod builders;
#[cfg(test)]
mod cells;
#[cfg(test)]
mod digests;
#[cfg(test)]
mod flow;
#[cfg(test)]
mod json;
#[cfg(test)]
mod kinds;
#[cfg(test)]
mod names;
#[cfg(test)]
mod values;
