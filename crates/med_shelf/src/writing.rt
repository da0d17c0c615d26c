// The text of the manifest of records.
ghost use Rattle.std.specs.Prelude.{◌≡◌, IfOk, length, map};
ghost use Rattle.med_base.specs.Key.{AreRising};
ghost use Rattle.med_manifest.specs.Manifest.{NamesThese};
ghost use Rattle.med_manifest.specs.Written.{manifest_text};
ghost use Rattle.med_shelf.specs.Records.{files_of, keys_of};

use med_base::NoMemory;
use med_core::{How, Record};
use med_manifest::{FileRecord, Manifest};
use std::alloc::{AllocError, Global};

/// The text of the manifest of some records, and the records.
#[derive(Drop)]
pub(crate) struct Written {
    pub text: Vec<u8>,
    pub records: Vec<Record>,
}

// How the file of each record came to its path.
fn hows_of(alloc: Global, records: &[Record]) -> Result<Vec<How>, AllocError>
    ensures { IfOk result (λ hows. hows.items ≡ map (λ r. r.how) records.now) }
{
    records.iter().map(|record| record.how).collect(alloc)
}

// The files of the records, which aren't copied.
fn take_files(alloc: Global, records: Vec<Record>) -> Result<Vec<FileRecord>, AllocError>
    ensures { IfOk result (λ files. files.items ≡ files_of records.items) }
{
    records.into_iter().map(|record| record.file).collect(alloc)
}

// The records of these files, each with how it came to its path.
fn join_records(
    alloc: Global,
    files: Vec<FileRecord>,
    hows: Vec<How>,
) -> Result<Vec<Record>, AllocError>
    requires { length files.items ≡ length hows.items }
    ensures files { IfOk result (λ records. files_of records.items ≡ files.items) }
    ensures hows { IfOk result (λ records. map (λ r. r.how) records.items ≡ hows.items) }
{
    files
        .into_iter()
        .zip(hows)
        .map(|(file, how)| Record { file, how })
        .collect(alloc)
}

/// Writes the manifest of the records, which stand in order of their keys.
pub(crate) fn write_records(alloc: Global, records: Vec<Record>) -> Result<Written, NoMemory>
    requires { AreRising (keys_of records.items) }
    ensures records { IfOk result (λ written. written.records.items ≡ records.items) }
    ensures text { IfOk result
        (λ written. written.text.items ≡ manifest_text (files_of records.items)) }
    ensures names { IfOk result
        (λ written. NamesThese written.text.items (files_of records.items)) }
{
    let hows = match hows_of(alloc, records.as_slice()) {
        Ok(hows) => hows,
        Err(_) => return Err(NoMemory),
    };
    let files = match take_files(alloc, records) {
        Ok(files) => files,
        Err(_) => return Err(NoMemory),
    };
    let manifest = Manifest { files };
    let text = match manifest.write(alloc) {
        Ok(text) => text,
        Err(NoMemory) => return Err(NoMemory),
    };
    match join_records(alloc, manifest.files, hows) {
        Ok(records) => Ok(Written { text, records }),
        Err(_) => Err(NoMemory),
    }
}
