//! What tests of the outside share: calls of a storage as rows, and files that tests make.
//!
//! Both are asked for by a text: a call with its answer, ` => ` between them, or a file and what it
//! is to hold. Nothing but crates of tests uses this one.
#![tactic(auto)]

pub mod calls;
pub mod pages;
pub mod places;
pub mod rows;
mod uploads;
