//! The backup of one node over its shelf: claim, place of each file, finish.
//!
//! `backup_node` reads what a backup begins with, and then makes its sections in a row. Its contract says
//! which sections they are, what each answer means of them, and what the report counts.
//! Read `specs/Sections.antt` first, then `specs/Backups.antt`.
#![tactic(auto)]

mod backup;
mod behind;
mod keys;
mod placing;
mod report;
mod sources;

pub use backup::{BackupError, backup_node};
pub use keys::{WalkError, walk};
pub use report::BackupReport;
