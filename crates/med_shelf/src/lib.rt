//! Sections of one node that make a backup: claim, place, finish and abandon.
//!
//! Each call is one section: a group of storage calls that no other section of the node interrupts.
//! The crate takes no lock, and reads no clock but the storage's.
//! Read `specs/Section.antt` of med_core first, then `specs/Acts.antt`, then the clauses of
//! `Shelf::claim`.
#![tactic(auto)]

mod checking;
mod claiming;
mod claims;
mod ending;
mod errors;
mod finished;
mod finishing;
mod placing;
mod puts;
mod sending;
mod shelves;
mod writing;

pub use claims::Claim;
pub use errors::{ClaimError, FinishError, PlaceError};
pub use finished::Finished;
pub use shelves::Shelf;
