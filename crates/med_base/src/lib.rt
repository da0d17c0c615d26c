//! Names, paths and fingerprints of a bucket of backups.
//!
//! A name is read once, and from then on its type says that it keeps the rules. `Layout` gives
//! every path of the bucket. Nothing here reads or writes a file.
//! Read `specs/Names.antt` and `specs/Layout.antt` first.
#![tactic(auto)]

mod added;
mod builders;
mod classify;
mod component;
mod cut;
mod decimal;
mod digest;
mod entries;
mod fingerprint;
mod flow;
mod key;
mod kinds;
mod laws;
mod layout;
mod memory;
mod names;
mod order;
mod path;
mod pieces;
mod prefix;

pub use component::Component;
pub use cut::cut_at;
pub use decimal::decimal_in;
pub use digest::{BadDigest, read_md5};
pub use fingerprint::{Fingerprint, md5_text};
pub use flow::Flow;
pub use key::FileKey;
pub use kinds::{IndexKind, LatestKind, PathKind};
pub use laws::{builders_and_data, builders_and_kinds};
pub use layout::{Layout, MetaKind};
pub use memory::{NoMemory, OrMemory};
pub use names::{BackupName, Fqdn, NameError};
pub use path::ObjPath;
