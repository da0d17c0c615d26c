// What a finish answers.
use med_base::BackupName;
use med_core::Record;

/// A backup that was finished: its name, the second of its manifest, and the records of its files in
/// order of their keys.
#[derive(Drop)]
pub struct Finished {
    pub name: BackupName,
    pub second: u64,
    pub records: Vec<Record>,
}
