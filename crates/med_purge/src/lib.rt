//! The purge of one node: which of its backups go, by their age and by their number.
//!
//! Nothing is deleted here, and no clock is read.
//! Read `specs/Rule.antt` first, then the clause of `rule`.
#![tactic(auto)]

mod rules;

pub use rules::rule;
