// Records of the files of a backup, and what a removal took.
use med_base::BackupName;
use med_manifest::FileRecord;

/// How the file of a record came to its path.
#[derive(Clone, Copy, Debug, PartialEq, Eq)]
pub enum How {
    /// The shared file that stood has its size and MD5.
    Reused,
    /// It was stored: as the shared file, where none stood, or, in a full backup, as the backup's own.
    Stored,
    /// It was stored as the backup's own, since the shared file that stood is another one.
    Aside,
}

/// A file of a backup, and how it came to its path.
#[derive(Drop)]
pub struct Record {
    pub file: FileRecord,
    pub how: How,
}

/// What a removal took: the names of the backups, in byte order, and how many files they and old
/// shared files were, with how many bytes. Both numbers are held at the last value of their type.
#[derive(Drop)]
pub struct Removed {
    pub names: Vec<BackupName>,
    pub files: u64,
    pub bytes: u64,
}
