//! What a command meets outside: files, a storage, nodes with their snapshots, and a sink.
//!
//! Each trait says of every call what an answer means, what a refusal leaves, and that a refusal
//! other than want of memory comes only where a count of faults rose. What an object holds is told
//! optionally; clauses on contents hold where it is told.
//! Read `specs/State.antt` and `specs/Storage.antt` first.
#![tactic(auto)]

mod backup_row;
mod copy_fault;
mod denied;
mod files;
mod mode;
mod nodes;
mod opened;
mod piece;
mod recorded;
mod send;
mod sink;
mod storage;
mod trace;

pub use backup_row::BackupRow;
pub use copy_fault::CopyFault;
pub use denied::Denied;
pub use files::Files;
pub use mode::Mode;
pub use nodes::{Nodes, RawKey, Snap};
pub use opened::{OpenSnapshots, OpenedFor};
pub use piece::{PIECE, Piece};
pub use recorded::{commit_recorded, delete_recorded, put_recorded};
pub use send::{print_file, upload_file};
pub use sink::{Sink, SinkFailed};
pub use storage::{Entry, Page, PageEnd, Stat, Storage};
pub use trace::{Change, Section, Text, Trace};
