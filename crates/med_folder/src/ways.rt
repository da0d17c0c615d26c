// Folders that were found to be folders themselves, and no links.
use crate::faults::is_absent;
use crate::files::make_folder;
use crate::paths::{joined, parent_of};
use std::alloc::Global;
use std::collections::BTreeMap;
use std::fs::{Files, Metadata};
use std::io::ErrorKind;
use std::os::unix::fs::MetadataExt;
use std::{fs, io};

/// What the system tells files and folders apart by.
#[derive(Clone, Copy, PartialEq, Eq)]
struct Identity {
    device: u64,
    inode: u64,
}

fn identity_of(metadata: &Metadata) -> Identity {
    Identity {
        device: metadata.dev(),
        inode: metadata.ino(),
    }
}

/// What lies on the way down to a folder.
#[derive(Clone, Copy)]
pub(crate) enum Way {
    /// Folders, down to the last one.
    Plain,
    /// Folders, and then nothing, or what is neither a folder nor a link.
    Broken,
    /// Folders, and then a link.
    Linked,
}

/// Refuses a way that isn't plain.
pub(crate) fn check_plain(way: Way) -> io::Result<()> {
    match way {
        Way::Plain => Ok(()),
        Way::Broken | Way::Linked => Err(io::Error::from(ErrorKind::InvalidFilename)),
    }
}

/// The folders to which a plain way was found in this run.
#[derive(Drop)]
pub(crate) struct Ways {
    seen: BTreeMap<String, Identity>,
}

impl Ways {
    pub(crate) fn none(alloc: Global) -> Ways {
        Ways {
            seen: BTreeMap::new(alloc),
        }
    }

    /// Notes a folder to which a plain way was found.
    pub(crate) fn note(
        &mut self,
        alloc: Global,
        folder: &str,
        metadata: &Metadata,
    ) -> io::Result<()> {
        let key = String::from_str(alloc, folder)?;
        self.seen.insert(key, identity_of(metadata))?;
        Ok(())
    }

    // Whether a plain way to the folder was found, and it is the same folder still.
    fn is_as_seen<R: Files>(&self, rt: &R, folder: &str) -> io::Result<bool> {
        let Some(seen) = self.seen.get(folder) else {
            return Ok(false);
        };
        match fs::symlink_metadata(rt, folder) {
            Ok(metadata) => Ok(metadata.is_dir() && identity_of(&metadata) == *seen),
            Err(error) if is_absent(&error) => Ok(false),
            Err(error) => Err(error),
        }
    }

    // Looks at a folder, the way to whose parent is plain.
    fn look<R: Files>(&mut self, rt: &R, alloc: Global, folder: &str) -> io::Result<Way> {
        match fs::symlink_metadata(rt, folder) {
            Ok(metadata) if metadata.is_dir() => {
                self.note(alloc, folder, &metadata)?;
                Ok(Way::Plain)
            }
            Ok(metadata) if metadata.is_symlink() => Ok(Way::Linked),
            Ok(_) => Ok(Way::Broken),
            Err(error) if is_absent(&error) => Ok(Way::Broken),
            Err(error) => Err(error),
        }
    }

    // Makes a folder, the way to whose parent is plain, and looks at what is there then: another program
    // may have made it meanwhile.
    fn make_below<R: Files>(&mut self, rt: &R, alloc: Global, folder: &str) -> io::Result<Way> {
        match make_folder(rt, folder) {
            Err(error) if error.kind() != ErrorKind::AlreadyExists => Err(error),
            _ => self.look(rt, alloc, folder),
        }
    }

    // Looks at a folder in the same way. Where it makes, and nothing is there, the folder is made.
    fn step<R: Files>(
        &mut self,
        rt: &R,
        alloc: Global,
        folder: &str,
        makes: bool,
    ) -> io::Result<Way> {
        match self.look(rt, alloc, folder)? {
            Way::Broken if makes => self.make_below(rt, alloc, folder),
            way => Ok(way),
        }
    }

    // Looks at each folder on the way from `top` down to one, as far as it is plain.
    fn walk<R: Files>(
        &mut self,
        rt: &R,
        alloc: Global,
        top: &str,
        folder: &str,
        makes: bool,
    ) -> io::Result<Way> {
        let mut at = String::from_str(alloc, top)?;
        for part in folder.split('/') {
            at.push('/')?;
            at.push_str(part)?;
            match self.step(rt, alloc, at.as_str(), makes)? {
                Way::Plain => {}
                way => return Ok(way),
            }
        }
        Ok(Way::Plain)
    }

    // What was found plain isn't walked again: it is looked at whether the folder, or that above
    // it, is the same one.
    fn go<R: Files>(
        &mut self,
        rt: &R,
        alloc: Global,
        top: &str,
        folder: &str,
        makes: bool,
    ) -> io::Result<Way> {
        let at = joined(alloc, top, folder)?;
        if self.is_as_seen(rt, at.as_str())? {
            return Ok(Way::Plain);
        }
        if !self.is_as_seen(rt, parent_of(at.as_str()))? {
            return self.walk(rt, alloc, top, folder, makes);
        }
        if makes {
            self.make_below(rt, alloc, at.as_str())
        } else {
            self.look(rt, alloc, at.as_str())
        }
    }

    /// The way from `top` down to a folder below it.
    pub(crate) fn find<R: Files>(
        &mut self,
        rt: &R,
        alloc: Global,
        top: &str,
        folder: &str,
    ) -> io::Result<Way> {
        self.go(rt, alloc, top, folder, false)
    }

    /// The same, where folders that aren't there are made. What is in the way of one is a refusal.
    pub(crate) fn make<R: Files>(
        &mut self,
        rt: &R,
        alloc: Global,
        top: &str,
        folder: &str,
    ) -> io::Result<Way> {
        self.go(rt, alloc, top, folder, true)
    }
}
