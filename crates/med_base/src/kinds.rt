// What the paths of a bucket are.
use crate::MetaKind;

/// The entries that an index has of a backup: copies of its token map and its manifest, and empty
/// objects that tell when it started, when it finished, and that it is differential. Times are in
/// seconds since 1970-01-01T00:00:00Z.
#[derive(Clone, Copy)]
pub enum IndexKind {
    Tokenmap,
    Manifest,
    Started(u64),
    Finished(u64),
    Differential,
}

/// The objects that tell of the latest backup of a node: its name, and a copy of its token map.
#[derive(Clone, Copy)]
pub enum LatestKind {
    Name,
    Tokenmap,
}

/// What a path is, with the names in it.
#[derive(Clone, Copy)]
pub enum PathKind<'a> {
    /// A file that the backups of a node share.
    Shared {
        owner: &'a str,
        keyspace: &'a str,
        table: &'a str,
        file: &'a str,
    },
    /// A file that is one backup's own.
    Own {
        owner: &'a str,
        backup: &'a str,
        keyspace: &'a str,
        table: &'a str,
        file: &'a str,
    },
    /// An object that tells of a backup.
    Meta {
        owner: &'a str,
        backup: &'a str,
        kind: MetaKind,
    },
    /// Anything else in the folder of a node, with the backup in whose folder it lies.
    Stray {
        owner: &'a str,
        backup: Option<&'a str>,
    },
    /// An entry of the index.
    IndexEntry {
        owner: &'a str,
        backup: &'a str,
        kind: IndexKind,
    },
    /// An object that tells of the latest backup of a node.
    Latest {
        owner: &'a str,
        kind: LatestKind,
    },
    /// Any other path. It belongs to no node.
    Other,
}
