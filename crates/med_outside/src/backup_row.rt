// A backup of a node as a list of backups has it.
use crate::Mode;
use med_base::BackupName;

/// What a list of the backups of a node tells of one. Seconds are whole ones since
/// 1970-01-01T00:00:00Z.
#[derive(Debug, Drop)]
pub struct BackupRow {
    pub name: BackupName,
    pub mode: Mode,
    /// When its schema was stored, or, where there is none, the first of what tells of it.
    pub started: u64,
    /// When its manifest was stored; `None` where there is no manifest.
    pub finished: Option<u64>,
    /// This process is making it.
    pub running: bool,
}
