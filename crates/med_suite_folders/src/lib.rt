//! Tests of real folders, byte for byte: objects, uploads, pages, and the files of a snapshot.
//!
//! The crate has no code of its own. A table is one text: a row a line, a call and its answer with
//! ` => ` between them. The tests run in one folder: each file has a bucket, or a root of nodes, of
//! its own. Expected values come from the rules, never from a run.
#![tactic(auto)]

#[cfg(test)]
mod file_pieces;
#[cfg(test)]
mod object_pieces;
#[cfg(test)]
mod objects;
#[cfg(test)]
mod pages;
#[cfg(test)]
mod sizes;
#[cfg(test)]
mod uploads;
