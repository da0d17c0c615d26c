//! The index of the backups of a node: what a bucket tells of them without reading each one.
//!
//! Each call that changes the storage makes one list of changes, and says with the word `Makes` of
//! med_outside how far it came. The lists stand in med_manifest. Read `specs/Mend.antt`,
//! `specs/EntryPuts.antt` and `specs/Index.antt` there first.
#![tactic(auto)]

mod backups;
mod changes;
mod entries;
mod errors;
mod gather;
mod given;
mod listed;
mod manifests;
mod marks;
mod mend;
mod meta;
mod newest;
mod nodes;
mod pages;
mod plans;
mod put;
mod rebuilding;
mod report;
mod running;

pub use backups::{find_backups, rows};
pub use changes::Planned;
pub use entries::{finish_entries, start_entries};
pub use errors::{IndexError, ListError};
pub use listed::clean_entries;
pub use manifests::{Manifests, manifests_outside};
pub use marks::Marks;
pub use mend::{mend_latest, plan_mend_outside};
pub use nodes::nodes_in;
pub use pages::{Visitor, walk};
pub use rebuilding::rebuild;
pub use report::IndexReport;
pub use running::set_of;
