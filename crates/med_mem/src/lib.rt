//! The outside in memory: files, a storage, nodes with snapshots, and a sink.
//!
//! Each is a full implementation of its trait in `med_outside`, and tells all that it holds. The
//! storage keeps a record of its changes, from which the contents that stood follow.
//! Read `specs/Told.antt` and `specs/Snaps.antt` first.
#![tactic(auto)]

mod failing;
mod faults;
mod files;
mod indexed;
mod key;
mod nodes;
mod object;
mod page;
mod piece;
mod sink;
mod snapshot;
mod store;
mod upload;

pub use faults::{MemFault, MemWhen};
pub use files::MemFiles;
pub use nodes::MemNodes;
pub use object::MemObject;
pub use sink::MemSink;
pub use snapshot::{MemFile, MemOpened, MemSnap};
pub use store::MemStore;
