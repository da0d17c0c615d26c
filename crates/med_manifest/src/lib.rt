//! The manifest of a backup: which files it has, and its text in JSON.
//!
//! `Manifest::write` gives the canonical text, which the definition of a manifest relates to the
//! same files. `Manifest::read` takes any text that the definition relates to files, and says of
//! each other text what its first fault is. Read `specs/Named.antt` and `specs/Manifest.antt`
//! first: they say what a manifest is, by the tree of its text, whoever wrote it; then
//! `specs/Refusals.antt`. `specs/Mend.antt`, `Index.antt` and `Rebuild.antt` say what the backups
//! of a node give to its index.
#![tactic(auto)]

mod laws;
mod manifest;
mod records;
mod shape;
mod why;
mod written;

pub use laws::{index_is_given, manifests_are_one, rebuild_makes_exact, starts_are_told};
pub use manifest::{FileRecord, Manifest};
pub use why::{ManifestError, ManifestWhy};
