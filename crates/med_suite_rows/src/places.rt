// Files, folders and links that tests make.
use std::alloc::Global;
use std::fs::{File, FileTimes, Files, OpenFile, OpenOptions};
use std::io::{ErrorKind, Write};
use std::os::unix::fs::symlink;
use std::time::{Duration, UNIX_EPOCH};
use std::{fs, io};

/// So many bytes. Their row isn't the same at two pieces of a file.
pub fn many_bytes(alloc: Global, count: usize) -> Option<Vec<u8>> {
    let mut row = Vec::new(alloc);
    for i in 0..251u8 {
        row.push(i).ok()?;
    }
    let mut bytes = row.as_slice().repeat(alloc, count / 251 + 1).ok()?;
    bytes.truncate(count);
    Some(bytes)
}

/// A file of more bytes than one read gives, or none where there is no memory.
pub fn long_file(alloc: Global) -> Vec<u8> {
    match many_bytes(alloc, 200_000) {
        Some(bytes) => bytes,
        None => Vec::new(alloc),
    }
}

/// Writes a file, and makes the folders above it.
pub fn write_file<R: Files>(rt: &R, path: &str, bytes: &[u8]) -> io::Result<()> {
    if let Some((folder, _)) = path.rsplit_once('/') {
        fs::create_dir_all(rt, folder)?;
    }
    File::create(rt, path)?.write_all(bytes)
}

/// Writes so many files of one byte into a folder: `1000`, `1001` and so on.
pub fn write_many<R: Files>(rt: &R, alloc: Global, folder: &str, count: u32) -> Option<()> {
    for i in 0..count {
        let number = i.checked_add(1000)?;
        let path = format!(in alloc; "{folder}/{number}").ok()?;
        write_file(rt, path.as_str(), b"x").ok()?;
    }
    Some(())
}

// Gives a file the modified time of a second.
fn set_second<R: Files>(rt: &R, path: &str, second: &str) -> io::Result<()> {
    let Ok(second) = second.parse::<u32>() else {
        return Err(io::Error::from(ErrorKind::InvalidInput));
    };
    let Some(moment) = UNIX_EPOCH.checked_add(Duration::from_secs(u64::from(second))) else {
        return Err(io::Error::from(ErrorKind::InvalidInput));
    };
    let file = OpenOptions::new().write(true).open(rt, path)?;
    file.set_times(FileTimes::new().set_modified(moment))
}

fn check_absent<R: Files>(rt: &R, path: &str) -> io::Result<()> {
    match fs::symlink_metadata(rt, path) {
        Ok(_) => Err(io::Error::from(ErrorKind::AlreadyExists)),
        Err(_) => Ok(()),
    }
}

fn make<R: Files>(rt: &R, word: &str, path: &str, text: &str) -> io::Result<()> {
    match word {
        "file" => write_file(rt, path, text.as_bytes()),
        "folder" => fs::create_dir_all(rt, path),
        "link" => symlink(rt, text, path),
        "date" => set_second(rt, path, text),
        "absent" => check_absent(rt, path),
        "rmdir" => fs::remove_dir(rt, path),
        "remove" => fs::remove_file(rt, path),
        _ => Err(io::Error::from(ErrorKind::InvalidInput)),
    }
}

/// Whether a row is done: `file PATH=TEXT`, `folder PATH`, `link PATH=WHERE`, `date PATH=SECOND`,
/// `absent PATH`, `rmdir FOLDER` or `remove FILE`.
pub fn is_done<R: Files>(rt: &R, row: &str) -> bool {
    let (word, rest) = row.split_once(' ').unwrap_or((row, ""));
    let (path, text) = rest.split_once('=').unwrap_or((rest, ""));
    make(rt, word, path, text).is_ok()
}

/// The first row that can't be done.
pub fn first_undone<'a, R: Files>(rt: &R, table: &'a str) -> Option<&'a str> {
    for row in table.split('\n') {
        if !is_done(rt, row) {
            return Some(row);
        }
    }
    None
}
