// The objects of a bucket as files below its folder.
ghost use Rattle.std.specs.Prelude.{◌≡◌, ◌++◌, true, IfOk, IfSome, OnOk, codes, string_bytes};
ghost use Rattle.med_outside.specs.Pieces.{EndsInRange};
ghost use Rattle.med_folder.specs.Place.{is_object_path};

use crate::faults::is_absent;
use crate::files::{remove_there, sync_there, sync_way, write_anew};
use crate::locks::{Change, part_place};
use crate::measure::fingerprint_read;
use crate::paths::{is_object_path, joined, parent_of};
use crate::pieces::{Reading, going_on, read_on, reading_from};
use crate::seconds::modified_second;
use crate::tree::Tree;
use med_outside::{Piece, Stat};
use std::alloc::Global;
use std::fs::{File, Files, Metadata};
use std::io;
use std::io::{ErrorKind, Read};

/// The path of an object's file. Where no bucket is open, or no object can have the path, it
/// refuses.
pub(crate) fn place_of(alloc: Global, bucket: &str, path: &str) -> io::Result<String>
    ensures place { OnOk result (is_object_path path.now ≡ true) }
    ensures value { IfOk result
        (λ place. string_bytes place ≡ bucket.now ++ codes "/" ++ path.now) }
{
    if bucket.is_empty() {
        return Err(io::Error::from(ErrorKind::NotFound));
    }
    if !is_object_path(path.as_bytes()) {
        return Err(io::Error::from(ErrorKind::InvalidFilename));
    }
    Ok(joined(alloc, bucket, path)?)
}

// A file, or none where there is none.
fn open_if_there<R: Files>(rt: &R, place: &str) -> io::Result<Option<R::File>> {
    match File::open(rt, place) {
        Ok(file) => Ok(Some(file)),
        Err(error) if is_absent(&error) => Ok(None),
        Err(error) => Err(error),
    }
}

impl<R: Files<File = File>> Tree<R> {
    /// Writes an object's file, and moves it to its place. The system has kept all that waited
    /// before, and keeps this file before it takes its place.
    pub(crate) fn put(
        &mut self,
        alloc: Global,
        bucket: &str,
        change: Change<'_>,
        path: &str,
        bytes: &[u8],
        second: u64,
    ) -> io::Result<()>
        ensures { OnOk result (is_object_path path.now ≡ true) }
    {
        let place = place_of(alloc, bucket, path)?;
        self.hold(alloc, bucket, change)?;
        self.waiting.sync(&self.rt)?;
        let part = part_place(alloc, bucket, change)?;
        let metadata = write_anew(&self.rt, part.as_str(), bytes, second)?;
        self.prints.forget(&metadata);
        self.move_in(alloc, bucket, path, part.as_str(), place.as_str())?;
        sync_way(&self.rt, bucket, place.as_str())
    }

    // The file of an object, or none where there is none.
    fn open_there(&mut self, alloc: Global, bucket: &str, path: &str) -> io::Result<Option<File>>
        ensures { OnOk result (is_object_path path.now ≡ true) }
    {
        let place = place_of(alloc, bucket, path)?;
        match self.find_file(alloc, bucket, path)? {
            Some(_) => open_if_there(&self.rt, place.as_str()),
            None => Ok(None),
        }
    }

    // Reads a file through by pieces, and notes its fingerprint.
    fn stat_anew(&mut self, alloc: Global, place: &str) -> io::Result<Option<Stat>> {
        let Some(mut file) = open_if_there(&self.rt, place)? else {
            return Ok(None);
        };
        let metadata = file.metadata()?;
        let second = modified_second(&metadata)?;
        let fingerprint = fingerprint_read(alloc, &mut file)?;
        self.prints.note(alloc, &metadata, fingerprint);
        Ok(Some(Stat {
            fingerprint,
            second,
        }))
    }

    // The fingerprint that was noted, where the file is as it was then.
    fn stat_noted(&self, metadata: &Metadata) -> io::Result<Option<Stat>> {
        let Some(fingerprint) = self.prints.known(metadata) else {
            return Ok(None);
        };
        let second = modified_second(metadata)?;
        Ok(Some(Stat {
            fingerprint,
            second,
        }))
    }

    /// The fingerprint and the second of an object. Its file is read through once in a run, as long
    /// as it stays as it was.
    pub(crate) fn stat(
        &mut self,
        alloc: Global,
        bucket: &str,
        path: &str,
    ) -> io::Result<Option<Stat>>
        ensures { OnOk result (is_object_path path.now ≡ true) }
    {
        let place = place_of(alloc, bucket, path)?;
        let Some(metadata) = self.find_file(alloc, bucket, path)? else {
            return Ok(None);
        };
        match self.stat_noted(&metadata)? {
            Some(stat) => Ok(Some(stat)),
            None => self.stat_anew(alloc, place.as_str()),
        }
    }

    /// The bytes of an object.
    pub(crate) fn get(
        &mut self,
        alloc: Global,
        bucket: &str,
        path: &str,
    ) -> io::Result<Option<Vec<u8>>>
        ensures { OnOk result (is_object_path path.now ≡ true) }
    {
        let Some(mut file) = self.open_there(alloc, bucket, path)? else {
            return Ok(None);
        };
        let mut bytes = Vec::new(alloc);
        file.read_to_end(&mut bytes)?;
        Ok(Some(bytes))
    }

    // The file of an object at a place, or none where there is no such object: the one that is being
    // read, where its next piece begins there, or the file opened anew.
    fn reading_at(
        &mut self,
        alloc: Global,
        bucket: &str,
        reading: Option<Reading<File>>,
        path: &str,
        from: u64,
    ) -> io::Result<Option<Reading<File>>>
        ensures object { OnOk result (is_object_path path.now ≡ true) }
        ensures path { IfOk result (λ found. IfSome found
            (λ reading. string_bytes reading.path ≡ path.now)) }
        ensures place { IfOk result (λ found. IfSome found (λ reading. reading.place ≡ from)) }
    {
        place_of(alloc, bucket, path)?;
        if let Some(reading) = going_on(reading, path, from) {
            return Ok(Some(reading));
        }
        let Some(file) = self.open_there(alloc, bucket, path)? else {
            return Ok(None);
        };
        let path = String::from_str(alloc, path)?;
        Ok(Some(reading_from(file, path, from)?))
    }

    /// The bytes of an object from a place on, up to a piece, and the file where the piece is full.
    pub(crate) fn piece(
        &mut self,
        alloc: Global,
        bucket: &str,
        reading: Option<Reading<File>>,
        path: &str,
        from: u64,
    ) -> io::Result<Option<(Piece, Option<Reading<File>>)>>
        ensures place { OnOk result (is_object_path path.now ≡ true) }
        ensures range { IfOk result
            (λ found. IfSome found (λ read. EndsInRange from read.0)) }
    {
        match self.reading_at(alloc, bucket, reading, path, from)? {
            Some(reading) => Ok(Some(read_on(alloc, reading)?)),
            None => Ok(None),
        }
    }

    /// Removes an object's file, where there is one. The system has kept all that waited before.
    /// Where there is no file the folder is synced too: what removed it may have been stopped
    /// before that.
    pub(crate) fn delete(
        &mut self,
        alloc: Global,
        bucket: &str,
        change: Change<'_>,
        path: &str,
    ) -> io::Result<()>
        ensures { OnOk result (is_object_path path.now ≡ true) }
    {
        let place = place_of(alloc, bucket, path)?;
        self.hold(alloc, bucket, change)?;
        self.waiting.sync(&self.rt)?;
        if let Some(metadata) = self.find_file(alloc, bucket, path)? {
            remove_there(&self.rt, place.as_str())?;
            self.prints.forget(&metadata);
        }
        sync_there(&self.rt, parent_of(place.as_str()))
    }
}
