//! The removal of backups of one node: what goes with them, found in the bucket.
//!
//! What goes is a list of paths in order, as `specs/Removal.antt` of med_core says it.
#![tactic(auto)]

mod backups;
mod going;
mod laws;
mod named;
mod picking;
mod planning;
mod removing;

pub use backups::add_backups;
pub use going::Going;
pub use laws::counts_are_what_goes;
pub use named::read_named;
pub use picking::{Named, add_content, add_old};
pub use planning::{RemovalPlan, plan_removal};
pub use removing::remove_paths;
