// Objects whose files are written piece by piece.
ghost use Rattle.std.specs.Prelude.{◌≡◌, ◌++◌, true, Some, IfOk, OnOk};
ghost use Rattle.med_base.specs.Fingerprint.{fingerprint_of};
ghost use Rattle.med_outside.specs.Pieces.{begun, with_piece};
ghost use Rattle.med_folder.specs.Place.{is_object_path};

use crate::files::{create_anew, remove_there, settle};
use crate::locks::{Change, part_place};
use crate::objects::place_of;
use crate::tree::Tree;
use crate::written::Written;
use med_base::Fingerprint;
use std::alloc::Global;
use std::fs::{File, Files, Metadata};
use std::io;
use std::io::{ErrorKind, Write};
use std::marker::Model;
use std::time::Clock;

/// A file in the folder of unfinished files that is being written, and the path of the object that
/// it becomes.
#[derive(Drop)]
pub(crate) struct Unfinished {
    file: File,
    part: String,
    path: String,
    written: Written,
}

impl Model for Unfinished {
    ghost use Rattle.std.specs.Prelude.{string_bytes};
    ghost use Rattle.med_outside.specs.State.{Upload};

    ghost Value = { Upload };

    ghost use Rattle.med_folder.specs.Uploads.{bytes_of};

    ghost view = { λ u. record { path = string_bytes u.path; bytes = bytes_of u.written } };
}

impl Unfinished {
    // Writes bytes behind those so far. Where its fingerprint was told, it refuses. After a refusal some
    // of them may have been written.
    fn append(&mut self, bytes: &[u8]) -> io::Result<()>
        ensures { OnOk result (self.new ≡ record {
          path = self.old.path;
          bytes = self.old.bytes ++ bytes.now;
        }) }
    {
        self.written.add(bytes)?;
        self.file.write_all(bytes)
    }

    /// The same upload, to which no more bytes are added, and the fingerprint of its bytes.
    pub(crate) fn ended(self) -> (Unfinished, Fingerprint)
        ensures same { result.0 ≡ self }
        ensures fingerprint { result.1 ≡ fingerprint_of self.bytes }
    {
        let Unfinished {
            file,
            part,
            path,
            written,
        } = self;
        let ended = written.end();
        let fingerprint = ended.fingerprint();
        let upload = Unfinished {
            file,
            part,
            path,
            written: Written::Whole(ended),
        };
        (upload, fingerprint)
    }
}

impl<R: Files<File = File>> Tree<R> {
    /// Makes the file of an upload new. Its folders are made when it takes its place.
    pub(crate) fn begin(
        &mut self,
        alloc: Global,
        bucket: &str,
        change: Change<'_>,
        path: &str,
    ) -> io::Result<Unfinished>
        ensures place { OnOk result (is_object_path path.now ≡ true) }
        ensures begun { IfOk result (λ upload. upload ≡ begun path.now) }
    {
        place_of(alloc, bucket, path)?;
        self.hold(alloc, bucket, change)?;
        let path = String::from_str(alloc, path)?;
        let part = part_place(alloc, bucket, change)?;
        let file = create_anew(&self.rt, part.as_str())?;
        Ok(Unfinished {
            file,
            part,
            path,
            written: Written::none(),
        })
    }

    /// Closes the file of an upload, and removes it. Where it can't be removed it is left: the next
    /// upload makes it new. It takes no memory.
    pub(crate) fn give_up(&self, upload: Unfinished) {
        let _ = remove_there(&self.rt, upload.part.as_str());
    }

    /// Writes bytes behind those of an upload. Where there is no upload, it refuses. After a
    /// refusal the file is given up.
    pub(crate) fn append(&self, upload: Option<Unfinished>, bytes: &[u8]) -> io::Result<Unfinished>
        ensures { IfOk result (λ grown. Some grown ≡ with_piece bytes.now upload) }
    {
        let Some(mut upload) = upload else {
            return Err(io::Error::from(ErrorKind::InvalidInput));
        };
        match upload.append(bytes) {
            Ok(()) => Ok(upload),
            Err(error) => {
                self.give_up(upload);
                Err(error)
            }
        }
    }

    // Moves a file of so many bytes to its place, and answers what the system told of it before. It
    // and its folders wait from before that on, so that nothing is moved that doesn't wait.
    fn take_place(
        &mut self,
        alloc: Global,
        bucket: &str,
        upload: (&str, &str, u64),
        file: File,
        second: u64,
    ) -> io::Result<Metadata> {
        let (path, part, size) = upload;
        let metadata = settle(&file, size, second)?;
        let place = place_of(alloc, bucket, path)?;
        self.waiting.add(alloc, file, bucket, place.as_str())?;
        self.move_in(alloc, bucket, path, part, place.as_str())?;
        Ok(metadata)
    }
}

impl<R: Files<File = File> + Clock> Tree<R> {
    /// Makes an upload an object. Where there is no upload, or its file hasn't as many bytes as
    /// were appended, it refuses. After a refusal the file is given up. Where many files wait, the
    /// system keeps them.
    pub(crate) fn commit(
        &mut self,
        alloc: Global,
        bucket: &str,
        upload: Option<Unfinished>,
        second: u64,
    ) -> io::Result<()> {
        let Some(upload) = upload else {
            return Err(io::Error::from(ErrorKind::InvalidInput));
        };
        let Unfinished {
            file,
            part,
            path,
            written,
        } = upload;
        let fingerprint = written.end().fingerprint();
        let whole = (path.as_str(), part.as_str(), fingerprint.size);
        match self.take_place(alloc, bucket, whole, file, second) {
            Ok(metadata) => {
                self.prints
                    .note_renamed(&self.rt, alloc, &metadata, fingerprint);
            }
            Err(error) => {
                let _ = remove_there(&self.rt, part.as_str());
                return Err(error);
            }
        }
        if self.waiting.is_full() {
            self.waiting.sync(&self.rt)?;
        }
        Ok(())
    }
}
