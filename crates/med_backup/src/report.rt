// What a backup reports.
ghost use Rattle.std.specs.Prelude.{◌≡◌};
ghost use Rattle.med_backup.specs.Backups.{IsReportOf, bytes_in, count_in, weight_of};

use med_base::{BackupName, Fqdn};
use med_core::{How, Record};
use med_shelf::Finished;

/// A backup that was made: how many files its manifest names with how many bytes, and how many of them
/// were there already, were stored, and were stored beside another file of the same key. Each number
/// is held at the last value of its type.
#[derive(Debug, Drop)]
pub struct BackupReport {
    pub name: BackupName,
    pub node: Fqdn,
    pub files: u64,
    pub bytes: u64,
    pub reused: u64,
    pub stored: u64,
    pub aside: u64,
}

// The sizes of the files of the records in all.
fn bytes_of(records: &[Record]) -> u64
    ensures { result ≡ bytes_in records.now }
{
    let mut bytes: u64 = 0;
    for record in records {
        bytes = bytes.saturating_add(record.file.fingerprint.size);
    }
    bytes
}

// One where a file came to its path in the way that is counted, and else nothing.
fn weight(wanted: How, how: How) -> u64
    ensures { result ≡ weight_of wanted how }
{
    match (wanted, how) {
        (How::Reused, How::Reused) => 1,
        (How::Stored, How::Stored) => 1,
        (How::Aside, How::Aside) => 1,
        _ => 0,
    }
}

// How many files of the records came to their paths in this way.
fn count_of(records: &[Record], wanted: How) -> u64
    ensures { result ≡ count_in wanted records.now }
{
    let mut count: u64 = 0;
    for record in records {
        count = count.saturating_add(weight(wanted, record.how));
    }
    count
}

/// The report of a backup of the node that was finished.
pub(crate) fn report_of(node: Fqdn, finished: Finished) -> BackupReport
    ensures { IsReportOf node finished.name finished.records.items result }
{
    let records = finished.records.as_slice();
    let files = records.len() as u64;
    let bytes = bytes_of(records);
    let reused = count_of(records, How::Reused);
    let stored = count_of(records, How::Stored);
    let aside = count_of(records, How::Aside);
    BackupReport {
        name: finished.name,
        node,
        files,
        bytes,
        reused,
        stored,
        aside,
    }
}
