// Locks of nodes, so that no two programs change the paths of one node at one time.
use crate::faults::is_absent;
use crate::paths::{UNFINISHED, joined};
use std::alloc::{AllocError, Global};
use std::fs::{File, Files, OpenOptions};
use std::io::ErrorKind;
use std::os::unix::fs::OpenOptionsExt;
use std::{fs, io};

/// A change of a path: the node to which the path belongs, if it belongs to one, and whether it is
/// made while an upload is under way.
#[derive(Clone, Copy)]
pub(crate) struct Change<'a> {
    pub(crate) owner: Option<&'a str>,
    pub(crate) is_meanwhile: bool,
}

// `<bucket>/.medusa-tmp/<word><name>`.
fn unfinished_file(
    alloc: Global,
    bucket: &str,
    word: &str,
    name: &str,
) -> Result<String, AllocError> {
    let mut path = joined(alloc, bucket, UNFINISHED)?;
    path.push('/')?;
    path.push_str(word)?;
    path.push_str(name)?;
    Ok(path)
}

/// The file that is written before it takes its place: one for each node, one for the paths of
/// nobody, and as many for what is put while an upload is under way.
pub(crate) fn part_place(
    alloc: Global,
    bucket: &str,
    change: Change<'_>,
) -> Result<String, AllocError> {
    match (change.owner, change.is_meanwhile) {
        (Some(owner), false) => unfinished_file(alloc, bucket, "part-", owner),
        (Some(owner), true) => unfinished_file(alloc, bucket, "put-", owner),
        (None, false) => unfinished_file(alloc, bucket, "rest", ""),
        (None, true) => unfinished_file(alloc, bucket, "put", ""),
    }
}

// The file of a lock, which is made where it isn't there. It follows no link.
fn open_lock<R: Files<File = File>>(rt: &R, path: &str) -> io::Result<File> {
    let mut options = OpenOptions::new();
    options.write(true).mode(0o600);
    match fs::symlink_metadata(rt, path) {
        Ok(metadata) if metadata.is_file() => {}
        Ok(_) => return Err(io::Error::from(ErrorKind::InvalidFilename)),
        Err(error) if is_absent(&error) => {
            options.create_new(true);
        }
        Err(error) => return Err(error),
    }
    options.open(rt, path)
}

/// A lock that is held. The system gives it up when the file is closed, as where the program ends.
#[derive(Drop)]
struct Lock {
    path: String,
    file: File,
}

/// The locks that are held.
#[derive(Drop)]
pub(crate) struct Locks {
    held: Vec<Lock>,
}

impl Locks {
    pub(crate) fn none(alloc: Global) -> Locks {
        Locks {
            held: Vec::new(alloc),
        }
    }

    fn holds(&self, path: &str) -> bool {
        for lock in &self.held {
            if lock.path.as_str() == path {
                return true;
            }
        }
        false
    }

    /// Takes the lock of a node, unless it is held already. Where another program holds it, it
    /// refuses.
    pub(crate) fn take<R: Files<File = File>>(
        &mut self,
        rt: &R,
        alloc: Global,
        bucket: &str,
        owner: &str,
    ) -> io::Result<()> {
        let path = unfinished_file(alloc, bucket, "lock-", owner)?;
        if self.holds(path.as_str()) {
            return Ok(());
        }
        let file = open_lock(rt, path.as_str())?;
        match file.try_lock() {
            Ok(()) => {}
            Err(error) => return Err(io::Error::from(error)),
        }
        self.held.push(Lock { path, file })?;
        Ok(())
    }
}
