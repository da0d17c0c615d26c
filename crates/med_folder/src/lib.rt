//! The outside as real files and folders: files by name, a bucket, the nodes with their snapshots,
//! and a stream.
//!
//! The objects meet the traits of med_outside and tell nothing of what they hold: no clause can say
//! what a file holds. Each call that can answer `Failed` asks the file system and hands the outcome
//! to `counted`, so that every refusal has a count that rose.
//! Read `specs/Untold.antt`, then `src/faults.rt` and `src/store.rt`.
#![tactic(auto)]

mod faults;
mod files;
mod keys;
mod locks;
mod measure;
mod nodes;
mod objects;
mod pages;
mod paths;
mod pieces;
mod prints;
mod real_files;
mod seconds;
mod sink;
mod snap;
mod store;
mod tree;
mod uploads;
mod waiting;
mod walk;
mod ways;
mod written;

pub use nodes::FolderNodes;
pub use real_files::RealFiles;
pub use sink::RealSink;
pub use snap::FolderSnap;
pub use store::FolderStore;
