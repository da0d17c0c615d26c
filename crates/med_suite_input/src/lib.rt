//! Tests of what an operator writes: the public calls of med_ini and med_words.
//!
//! The crate has no code of its own. A table is one text: a row a line, its cells divided by bars,
//! with `¶` for a line feed within a cell. Expected values come from the rules, never from a run.
#![tactic(auto)]

#[cfg(test)]
mod config;
#[cfg(test)]
mod ini;
#[cfg(test)]
mod requests;
#[cfg(test)]
mod words;
