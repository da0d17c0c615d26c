// Files that were stored and that the system is yet to keep.
use std::alloc::Global;
use std::collections::BTreeSet;
use std::fs::{File, Files, OpenFile};
use std::io;
use std::io::ErrorKind;

// How many files wait at most. Each is open, and a process may open 1,024 as a rule.
const MOST: usize = 500;

/// Stored files and the folders on their way, until the system has kept them.
#[derive(Drop)]
pub(crate) struct Waiting {
    files: Vec<File>,
    folders: BTreeSet<String>,
    is_lost: bool,
}

impl Waiting {
    pub(crate) fn none(alloc: Global) -> Waiting {
        Waiting {
            files: Vec::new(alloc),
            folders: BTreeSet::new(alloc),
            is_lost: false,
        }
    }

    fn add_folder(&mut self, alloc: Global, folder: &str) -> io::Result<()> {
        if !self.folders.contains(folder) {
            let key = String::from_str(alloc, folder)?;
            self.folders.insert(key)?;
        }
        Ok(())
    }

    fn add_way(&mut self, alloc: Global, top: &str, path: &str) -> io::Result<()> {
        for end in top.len()..path.len() {
            match path.split_at_checked(end) {
                Some((folder, rest)) if rest.starts_with('/') => self.add_folder(alloc, folder)?,
                _ => {}
            }
        }
        Ok(())
    }

    /// Notes a file that is about to take its path below `top`, and the folders on the way.
    pub(crate) fn add(
        &mut self,
        alloc: Global,
        file: File,
        top: &str,
        path: &str,
    ) -> io::Result<()> {
        self.add_way(alloc, top, path)?;
        self.files.push(file)?;
        Ok(())
    }

    /// Whether no more files are to wait.
    pub(crate) fn is_full(&self) -> bool {
        self.files.len() >= MOST
    }

    fn sync_each<R: Files>(&self, rt: &R) -> io::Result<()> {
        for file in &self.files {
            file.sync_all()?;
        }
        for folder in &self.folders {
            File::open(rt, folder.as_str())?.sync_all()?;
        }
        Ok(())
    }

    /// Has the system keep each file and each folder that waits. Once it has refused that, it isn't
    /// known what it kept, and each later call refuses. It takes no memory.
    pub(crate) fn sync<R: Files>(&mut self, rt: &R) -> io::Result<()> {
        if self.is_lost {
            return Err(io::Error::from(ErrorKind::InvalidData));
        }
        let outcome = self.sync_each(rt);
        self.is_lost = outcome.is_err();
        self.files.clear();
        self.folders.clear();
        outcome
    }
}
