// What goes with a removal, as far as it was found.
ghost use Rattle.std.specs.Prelude.{◌≡◌, [], OnOk};
ghost use Rattle.med_removal.specs.Going.{AddsAll, AddsOne, one_where, size_where};

use med_base::{NoMemory, ObjPath};
use std::alloc::Global;

/// What goes with a removal, as far as it was found: paths in order, and how many of them are those of
/// data objects, with how many bytes. Both numbers are held at the last value of their type.
#[derive(Drop)]
pub struct Going {
    pub paths: Vec<ObjPath>,
    pub files: u64,
    pub bytes: u64,
}

// One where a size is given, and else nothing.
fn one_where(size: Option<u64>) -> u64
    ensures { result ≡ one_where size }
{
    match size {
        None => 0,
        Some(_) => 1,
    }
}

// The size that is given, and else nothing.
fn size_where(size: Option<u64>) -> u64
    ensures { result ≡ size_where size }
{
    match size {
        None => 0,
        Some(size) => size,
    }
}

impl Going {
    /// Nothing goes.
    pub fn none(alloc: Global) -> Going
        ensures paths { result.paths.items ≡ [] }
        ensures files { result.files ≡ 0 }
        ensures bytes { result.bytes ≡ 0 }
    {
        Going {
            paths: Vec::new(alloc),
            files: 0,
            bytes: 0,
        }
    }

    /// Adds a path, with the size of its object where that is counted.
    pub(crate) fn add(&mut self, path: ObjPath, size: Option<u64>) -> Result<(), NoMemory>
        ensures { OnOk result (AddsOne path size self.old self.new) }
    {
        self.paths.push(path)?;
        self.files = self.files.saturating_add(one_where(size));
        self.bytes = self.bytes.saturating_add(size_where(size));
        Ok(())
    }

    /// Adds what was found elsewhere.
    pub(crate) fn join(&mut self, more: Going) -> Result<(), NoMemory>
        ensures { OnOk result (AddsAll more self.old self.new) }
    {
        let Going {
            mut paths,
            files,
            bytes,
        } = more;
        self.paths.append(&mut paths)?;
        self.files = self.files.saturating_add(files);
        self.bytes = self.bytes.saturating_add(bytes);
        Ok(())
    }
}
