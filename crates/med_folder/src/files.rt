// Files that are read and written whole.
use crate::faults::is_absent;
use crate::seconds::{modified_second, moment_of};
use std::alloc::Global;
use std::fs::{DirBuilder, File, FileTimes, Files, Metadata, OpenFile, OpenOptions};
use std::io::{ErrorKind, Read, Write};
use std::os::unix::fs::{DirBuilderExt, OpenOptionsExt};
use std::{fs, io};

/// Refuses where no folder has the path, nor a link to one.
pub(crate) fn check_folder<R: Files>(rt: &R, path: &str) -> io::Result<()> {
    if fs::metadata(rt, path)?.is_dir() {
        Ok(())
    } else {
        Err(io::Error::from(ErrorKind::NotADirectory))
    }
}

/// Whether each folder on the way from `top` down to `folder` is a folder itself, and no link or
/// file, as far as there are any.
pub(crate) fn is_plain_way<R: Files>(
    rt: &R,
    alloc: Global,
    top: &str,
    folder: &str,
) -> io::Result<bool> {
    let mut at = String::from_str(alloc, top)?;
    for part in folder.split('/') {
        at.push('/')?;
        at.push_str(part)?;
        match fs::symlink_metadata(rt, at.as_str()) {
            Ok(metadata) if metadata.is_dir() => {}
            Ok(_) => return Ok(false),
            Err(error) if is_absent(&error) => return Ok(true),
            Err(error) => return Err(error),
        }
    }
    Ok(true)
}

/// What lies at a path.
#[derive(Drop)]
pub(crate) enum Found {
    /// Nothing has the path, or what would be a folder on the way isn't one.
    Nothing,
    /// A link lies there or on the way.
    Link,
    /// Something else than a link.
    Here(Metadata),
}

/// What lies at a path. It follows no link there.
pub(crate) fn look_at<R: Files>(rt: &R, path: &str) -> io::Result<Found> {
    match fs::symlink_metadata(rt, path) {
        Ok(metadata) if metadata.is_symlink() => Ok(Found::Link),
        Ok(metadata) => Ok(Found::Here(metadata)),
        Err(error) if is_absent(&error) => Ok(Found::Nothing),
        Err(error) => Err(error),
    }
}

/// What lies at a path below `top`. It follows no link.
pub(crate) fn look_below<R: Files>(
    rt: &R,
    alloc: Global,
    top: &str,
    path: &str,
) -> io::Result<Found> {
    let mut at = String::from_str(alloc, top)?;
    let mut found = Found::Nothing;
    for part in path.split('/') {
        at.push('/')?;
        at.push_str(part)?;
        match fs::symlink_metadata(rt, at.as_str()) {
            Ok(metadata) if metadata.is_symlink() => return Ok(Found::Link),
            Ok(metadata) => found = Found::Here(metadata),
            Err(error) if is_absent(&error) => return Ok(Found::Nothing),
            Err(error) => return Err(error),
        }
    }
    Ok(found)
}

/// The plain file at a path, opened to be read. Where anything else lies there, or nothing, it
/// refuses.
pub(crate) fn open_plain<R: Files>(rt: &R, path: &str) -> io::Result<R::File> {
    if !fs::symlink_metadata(rt, path)?.is_file() {
        return Err(io::Error::from(ErrorKind::InvalidInput));
    }
    File::open(rt, path)
}

/// The bytes of the plain file at a path. Where anything else lies there, or nothing, it refuses.
pub(crate) fn read_plain<R: Files>(rt: &R, alloc: Global, path: &str) -> io::Result<Vec<u8>> {
    let mut bytes = Vec::new(alloc);
    open_plain(rt, path)?.read_to_end(&mut bytes)?;
    Ok(bytes)
}

/// Makes a folder and those above it that aren't there. Only their owner may enter them.
pub(crate) fn make_folders<R: Files>(rt: &R, path: &str) -> io::Result<()> {
    DirBuilder::new()
        .recursive(true)
        .mode(0o700)
        .create(rt, path)
}

/// Makes a folder. Only its owner may enter it.
pub(crate) fn make_folder<R: Files>(rt: &R, path: &str) -> io::Result<()> {
    DirBuilder::new().mode(0o700).create(rt, path)
}

/// Removes a file or a link, where there is one. It takes no memory.
pub(crate) fn remove_there<R: Files>(rt: &R, path: &str) -> io::Result<()> {
    match fs::remove_file(rt, path) {
        Err(error) if !is_absent(&error) => Err(error),
        _ => Ok(()),
    }
}

fn create_new<R: Files>(rt: &R, path: &str) -> io::Result<R::File> {
    let mut options = OpenOptions::new();
    options.write(true).create_new(true).mode(0o600);
    options.open(rt, path)
}

/// A new file that only its owner reads, in place of one that was left. It follows no link.
pub(crate) fn create_anew<R: Files>(rt: &R, path: &str) -> io::Result<R::File> {
    match create_new(rt, path) {
        Err(error) if error.kind() == ErrorKind::AlreadyExists => {
            remove_there(rt, path)?;
            create_new(rt, path)
        }
        outcome => outcome,
    }
}

fn is_settled(metadata: &Metadata, second: u64) -> bool {
    match modified_second(metadata) {
        Ok(modified) => modified == second,
        Err(_) => false,
    }
}

/// Gives a file that was written the modified time of a second, and answers what the system tells
/// of it. Where that is another size in bytes, or another second, it refuses.
pub(crate) fn settle<F: OpenFile>(file: &F, size: u64, second: u64) -> io::Result<Metadata> {
    let mut metadata = file.metadata()?;
    if !is_settled(&metadata, second) {
        file.set_times(FileTimes::new().set_modified(moment_of(second)?))?;
        metadata = file.metadata()?;
    }
    if metadata.len() != size || !is_settled(&metadata, second) {
        return Err(io::Error::from(ErrorKind::InvalidData));
    }
    Ok(metadata)
}

/// Writes a new file whose modified time is that second, and has the system keep it.
pub(crate) fn write_anew<R: Files>(
    rt: &R,
    path: &str,
    bytes: &[u8],
    second: u64,
) -> io::Result<Metadata> {
    let mut file = create_anew(rt, path)?;
    file.write_all(bytes)?;
    let metadata = settle(&file, bytes.len() as u64, second)?;
    file.sync_all()?;
    Ok(metadata)
}

/// Has the system keep the names in a folder, where there is one. It takes no memory, so that what
/// was removed isn't refused for want of it.
pub(crate) fn sync_there<R: Files>(rt: &R, folder: &str) -> io::Result<()> {
    match fs::metadata(rt, folder) {
        Ok(metadata) if metadata.is_dir() => File::open(rt, folder)?.sync_all(),
        Err(error) if !is_absent(&error) => Err(error),
        _ => Ok(()),
    }
}

/// Has the system keep the names in the folders on the way from `top` down to what the path names.
pub(crate) fn sync_way<R: Files>(rt: &R, top: &str, path: &str) -> io::Result<()> {
    for end in top.len()..path.len() {
        match path.split_at_checked(end) {
            Some((folder, rest)) if rest.starts_with('/') => File::open(rt, folder)?.sync_all()?,
            _ => {}
        }
    }
    Ok(())
}
