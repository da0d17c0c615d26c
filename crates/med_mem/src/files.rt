// Files in memory.
ghost use Rattle.std.specs.Prelude.{◌≡◌, [], option_map, IfOk, OnOk, OnErr};
ghost use Rattle.med_outside.specs.Causes.{HasCause};
ghost use Rattle.med_mem.specs.Failing.{FailsAsTold, unmade, with_step, after_call};
ghost use Rattle.med_mem.specs.Named.{bytes_at, file_at, with_file, with_reads, named_files};

use crate::failing::FailingCalls;
use med_base::NoMemory;
use med_outside::{Denied, Files};
use std::alloc::Global;
use std::marker::Model;

/// A file, and its name.
#[derive(Drop)]
pub(crate) struct AddedFile {
    name: String,
    bytes: Vec<u8>,
}

/// Files in memory. A read fails exactly where `fail_at` says so.
#[derive(Drop)]
pub struct MemFiles {
    files: Vec<AddedFile>,
    calls: FailingCalls,
}

impl Model for MemFiles {
    ghost use Rattle.med_mem.specs.Named.{Named, named_files};

    ghost Value = { Named };

    ghost view = { λ m. record { files = named_files m.files.items; calls = m.calls } };
}

impl MemFiles {
    /// No files and no faults. It takes no memory.
    pub fn new(alloc: Global) -> MemFiles
        ensures { result ≡ record { files = []; calls = unmade [] } }
    {
        MemFiles {
            files: Vec::new(alloc),
            calls: FailingCalls::none(alloc),
        }
    }

    /// Adds a file. The first that was added under a name counts.
    pub fn add(&mut self, alloc: Global, name: &str, bytes: Vec<u8>) -> Result<(), NoMemory>
        ensures ok { OnOk result (self.new ≡ with_file name.now bytes.items self.old) }
        ensures err { OnErr result (self.new ≡ self.old) }
    {
        let name = String::from_str(alloc, name)?;
        self.files.push(AddedFile { name, bytes })?;
        Ok(())
    }

    /// Lets the call of that number fail, counted from 1 over all calls of `read`. Behind the last
    /// value of a number no call fails.
    pub fn fail_at(&mut self, step: u64) -> Result<(), NoMemory>
        ensures ok { OnOk result (self.new ≡ with_reads (with_step step self.old.calls) self.old) }
        ensures err { OnErr result (self.new ≡ self.old) }
    {
        self.calls.fail_at(step)
    }
}

// The bytes of the first file of the name.
fn find_file<'a>(files: &'a [AddedFile], name: &str) -> Option<&'a [u8]>
    ensures { option_map (λ bytes. bytes.now) result ≡ bytes_at name.now
        (named_files files.now) }
{
    for file in files {
        if file.name.as_str() == name {
            return Some(file.bytes.as_slice());
        }
    }
    None
}

fn copy_file(alloc: Global, files: &[AddedFile], name: &str) -> Result<Option<Vec<u8>>, NoMemory>
    ensures { IfOk result (λ file. option_map (λ bytes. bytes.items) file
        ≡ bytes_at name.now (named_files files.now)) }
{
    match find_file(files, name) {
        Some(bytes) => Ok(Some(bytes.to_vec(alloc)?)),
        None => Ok(None),
    }
}

impl Files for MemFiles {
    ghost use Rattle.med_mem.specs.Named.{files_state};

    ghost state = { files_state };

    fn read(&mut self, alloc: Global, name: &str) -> Result<Option<Vec<u8>>, Denied>
        ensures ok { IfOk result
            (λ file. option_map (λ bytes. bytes.items) file ≡ file_at name.now self.old) }
        ensures failed { FailsAsTold self.old.calls result }
        ensures same { self.new ≡ with_reads (after_call self.old.calls) self.old }
        ensures cause { HasCause self.old.calls.faults self.new.calls.faults result }
    {
        if self.calls.next_fails() {
            return Err(Denied::Failed);
        }
        Ok(copy_file(alloc, self.files.as_slice(), name)?)
    }
}
