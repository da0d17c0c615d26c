// Why bytes were not read as a manifest.
use med_base::{ObjPath, OrMemory};

/// Why bytes are not the manifest of a backup: their first fault. The text comes before the
/// tables, all tables before the files, and the files come one after another.
#[derive(Drop)]
pub enum ManifestWhy {
    /// The bytes are not UTF-8, or not one JSON value with a nesting of at most 127.
    NotJson,
    /// The value is no list, and `at` is 0; or the item at this place of the list is the first
    /// that is no table with its files.
    NotManifest { at: usize },
    /// The MD5 of a file is spelled in no way, and `at` files stand before it, over all tables.
    BadDigest { at: usize },
    /// The path of a file is neither a shared path of the node nor an own path of the backup, or
    /// its keyspace or table is not that of the table in which it stands.
    ForeignPath { path: ObjPath },
    /// A file before this one has the same keyspace, table and file name.
    DuplicatePath { path: ObjPath },
}

/// Why the reader of manifests gave no answer: `Why` where the bytes are not the manifest of the
/// backup, and `Memory` where there was no memory for the answer.
pub type ManifestError = OrMemory<ManifestWhy>;
