// The files of the system, and what is kept in mind of them for a run.
use crate::files::{Found, check_folder, look_at};
use crate::locks::{Change, Locks};
use crate::paths::{UNFINISHED, joined, parent_of};
use crate::prints::Prints;
use crate::waiting::Waiting;
use crate::ways::{Way, Ways, check_plain};
use std::alloc::Global;
use std::fs::{File, Files, Metadata};
use std::io::ErrorKind;
use std::{fs, io};

/// The files of the system, the locks that are held, the files that the system is yet to keep, the
/// folders that were found plain, and the fingerprints of stored files.
#[derive(Drop)]
pub(crate) struct Tree<R> {
    pub(crate) rt: R,
    pub(crate) locks: Locks,
    pub(crate) waiting: Waiting,
    pub(crate) ways: Ways,
    pub(crate) prints: Prints,
}

impl<R> Tree<R> {
    pub(crate) fn new(alloc: Global, rt: R) -> Tree<R> {
        Tree {
            rt,
            locks: Locks::none(alloc),
            waiting: Waiting::none(alloc),
            ways: Ways::none(alloc),
            prints: Prints::none(alloc),
        }
    }
}

impl<R: Files<File = File>> Tree<R> {
    /// Readies a change: refuses where a link is in place of the folder of unfinished files, or
    /// another program changes paths of the node.
    pub(crate) fn hold(
        &mut self,
        alloc: Global,
        bucket: &str,
        change: Change<'_>,
    ) -> io::Result<()> {
        check_plain(self.ways.find(&self.rt, alloc, bucket, UNFINISHED)?)?;
        match change.owner {
            Some(owner) => self.locks.take(&self.rt, alloc, bucket, owner),
            None => Ok(()),
        }
    }

    /// Moves a file to the place of an object, in place of what was there. The folders on the way
    /// are made; where one of them is a link, it refuses.
    pub(crate) fn move_in(
        &mut self,
        alloc: Global,
        bucket: &str,
        path: &str,
        from: &str,
        to: &str,
    ) -> io::Result<()> {
        let folder = parent_of(path);
        if !folder.is_empty() {
            check_plain(self.ways.make(&self.rt, alloc, bucket, folder)?)?;
        }
        fs::rename(&self.rt, from, to)
    }

    // What lies on the way to an object. Where the bucket's folder isn't there, it refuses.
    fn way_to(&mut self, alloc: Global, bucket: &str, path: &str) -> io::Result<Way> {
        let folder = parent_of(path);
        if folder.is_empty() {
            check_folder(&self.rt, bucket)?;
            return Ok(Way::Plain);
        }
        let way = self.ways.find(&self.rt, alloc, bucket, folder)?;
        if let Way::Broken = way {
            check_folder(&self.rt, bucket)?;
        }
        Ok(way)
    }

    /// The plain file that lies at the path of an object, if one does. Where a link lies there or
    /// on the way, it refuses.
    pub(crate) fn find_file(
        &mut self,
        alloc: Global,
        bucket: &str,
        path: &str,
    ) -> io::Result<Option<Metadata>> {
        let found = match self.way_to(alloc, bucket, path)? {
            Way::Plain => look_at(&self.rt, joined(alloc, bucket, path)?.as_str())?,
            Way::Broken => Found::Nothing,
            Way::Linked => Found::Link,
        };
        match found {
            Found::Here(metadata) if metadata.is_file() => Ok(Some(metadata)),
            Found::Link => Err(io::Error::from(ErrorKind::FilesystemLoop)),
            _ => Ok(None),
        }
    }
}
