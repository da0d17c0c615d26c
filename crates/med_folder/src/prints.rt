// Fingerprints of stored files, for as long as the files stay as they were.
use med_base::Fingerprint;
use std::alloc::Global;
use std::collections::BTreeMap;
use std::fs::Metadata;
use std::io::ErrorKind;
use std::os::unix::fs::MetadataExt;
use std::time::{Clock, SystemTime, UNIX_EPOCH};
use std::{io, mem};

// Past twice as many the oldest half is forgotten.
const HALF: usize = 500_000;

// The fingerprint of a file, when it was modified, and the two moments between which it was changed
// last, in nanoseconds since 1970.
#[derive(Clone, Copy)]
struct Print {
    fingerprint: Fingerprint,
    modified: u64,
    changed_from: u64,
    changed_until: u64,
}

// Nanoseconds since 1970. Two times of the years 1970 to 2500 have two numbers.
fn nanoseconds(seconds: i64, nanos: i64) -> u64 {
    seconds
        .cast_unsigned()
        .wrapping_mul(1_000_000_000)
        .wrapping_add(nanos.cast_unsigned())
}

fn modified(metadata: &Metadata) -> u64 {
    nanoseconds(metadata.mtime(), metadata.mtime_nsec())
}

fn changed(metadata: &Metadata) -> u64 {
    nanoseconds(metadata.ctime(), metadata.ctime_nsec())
}

fn is_unchanged(print: &Print, metadata: &Metadata) -> bool {
    let changed = changed(metadata);
    print.fingerprint.size == metadata.len()
        && print.modified == modified(metadata)
        && print.changed_from <= changed
        && changed <= print.changed_until
}

// The nanoseconds since 1970 that the clock gives.
fn clock_nanoseconds(clock: &impl Clock) -> io::Result<u64> {
    match SystemTime::now(clock)?.duration_since(UNIX_EPOCH) {
        Ok(since) => Ok(nanoseconds(
            since.as_secs().cast_signed(),
            i64::from(since.subsec_nanos()),
        )),
        Err(_) => Err(io::Error::from(ErrorKind::InvalidData)),
    }
}

/// The fingerprints of files of one device, by their inodes.
#[derive(Drop)]
pub(crate) struct Prints {
    device: u64,
    newer: BTreeMap<u64, Print>,
    older: BTreeMap<u64, Print>,
}

impl Prints {
    pub(crate) fn none(alloc: Global) -> Prints {
        Prints {
            device: 0,
            newer: BTreeMap::new(alloc),
            older: BTreeMap::new(alloc),
        }
    }

    fn noted(&self, inode: u64) -> Option<Print> {
        match self.newer.get(&inode) {
            Some(print) => Some(*print),
            None => self.older.get(&inode).copied(),
        }
    }

    /// The fingerprint of a file, where it was noted and the file is as it was then.
    pub(crate) fn known(&self, metadata: &Metadata) -> Option<Fingerprint> {
        if metadata.dev() != self.device {
            return None;
        }
        match self.noted(metadata.ino()) {
            Some(print) if is_unchanged(&print, metadata) => Some(print.fingerprint),
            _ => None,
        }
    }

    /// Forgets a file, as where it was removed or is a new one.
    pub(crate) fn forget(&mut self, metadata: &Metadata) {
        if metadata.dev() == self.device {
            let inode = metadata.ino();
            let _ = self.newer.remove(&inode);
            let _ = self.older.remove(&inode);
        }
    }

    /// Notes the fingerprint of a file that was as the metadata say. Where there is no memory for
    /// it, it isn't noted.
    pub(crate) fn note(&mut self, alloc: Global, metadata: &Metadata, fingerprint: Fingerprint) {
        self.note_until(alloc, metadata, fingerprint, changed(metadata));
    }

    /// The same of a file that was renamed since, which changed it for the last time: the system is
    /// asked for the moment, and not for the file. Where the clock can't be read, it isn't noted.
    pub(crate) fn note_renamed(
        &mut self,
        clock: &impl Clock,
        alloc: Global,
        metadata: &Metadata,
        fingerprint: Fingerprint,
    ) {
        match clock_nanoseconds(clock) {
            Ok(until) => self.note_until(alloc, metadata, fingerprint, until),
            Err(_) => self.forget(metadata),
        }
    }

    // The same of a file that was changed for the last time at that moment at the latest.
    fn note_until(
        &mut self,
        alloc: Global,
        metadata: &Metadata,
        fingerprint: Fingerprint,
        until: u64,
    ) {
        self.forget(metadata);
        if metadata.dev() != self.device {
            self.device = metadata.dev();
            self.newer.clear();
            self.older.clear();
        }
        if self.newer.len() >= HALF {
            self.older = mem::replace(&mut self.newer, BTreeMap::new(alloc));
        }
        let print = Print {
            fingerprint,
            modified: modified(metadata),
            changed_from: changed(metadata),
            changed_until: until,
        };
        let _ = self.newer.insert(metadata.ino(), print);
    }
}
