// Fingerprints of what is read by pieces.
ghost use Rattle.std.specs.Prelude.{◌≡◌, ◌<◌, ◌++◌, ℕ, List, [], IfOk, IfSome, OnOk, length};
ghost use Rattle.std.specs.Io.{ReadsAtMost};
ghost use Rattle.std.specs.Io.KnownBytes.{ReadConsumes};
ghost use Rattle.med_base.specs.Fingerprint.{fingerprint_of};
ghost use Rattle.med_folder.specs.Measure.{Measures};

use md5::{Digest, Md5};
use med_base::Fingerprint;
use std::alloc::Global;
use std::io;
use std::io::{ErrorKind, Read};

// How many bytes are read at a time.
const PIECE: usize = 262_144;

/// The MD5 and the number of the bytes that were taken so far.
#[derive(Drop)]
struct Measure {
    hasher: Md5,
    size: u64,
}

impl Measure {
    fn start() -> Measure
        ensures { Measures result [] }
    {
        Measure {
            hasher: Md5::new(),
            size: 0,
        }
    }

    fn take(&mut self, piece: &[u8]) -> io::Result<()>
        ensures { OnOk result
            ((bytes : List ℕ) → Measures self.old bytes → Measures self.new (bytes ++ piece.now)) }
    {
        match self.size.checked_add(piece.len() as u64) {
            Some(size) => self.size = size,
            None => return Err(io::Error::from(ErrorKind::FileTooLarge)),
        }
        self.hasher.update(piece);
        Ok(())
    }

    fn fingerprint(self) -> Fingerprint
        ensures { (bytes : List ℕ) → Measures self bytes → result ≡ fingerprint_of bytes }
    {
        Fingerprint {
            size: self.size,
            md5: self.hasher.finalize(),
        }
    }
}

/// One read. Where a signal interrupts it, it is made again.
pub(crate) fn read_some<F: Read>(file: &mut F, piece: &mut [u8]) -> io::Result<usize>
    ensures bound { ReadsAtMost result piece.new }
    ensures len { length piece.new ≡ length piece.old }
    ensures bytes { ReadConsumes (F.remaining file.old) (F.remaining file.new) result piece.new }
{
    'tries: for _ in 0..u64::MAX {
        match file.read(piece) {
            Ok(count) => return Ok(count),
            Err(error) if error.kind() == ErrorKind::Interrupted => {}
            Err(error) => return Err(error),
        }
    }
    Err(io::Error::from(ErrorKind::TimedOut))
}

// The fingerprint of the bytes that a file has left. It is read into the piece, again and again.
fn fingerprint_by<F: Read>(file: &mut F, piece: &mut [u8]) -> io::Result<Fingerprint>
    requires { 0 < length piece.old }
    ensures { IfOk result (λ fingerprint. IfSome (F.remaining file.old)
        (λ bytes. fingerprint ≡ fingerprint_of bytes)) }
{
    let mut measure = Measure::start();
    'pieces: for _ in 0..u64::MAX {
        let count = read_some(file, piece)?;
        if count == 0 {
            return Ok(measure.fingerprint());
        }
        measure.take(&piece[..count])?;
    }
    Err(io::Error::from(ErrorKind::FileTooLarge))
}

/// The fingerprint of the bytes that a file has left. It takes memory for one piece of it.
pub(crate) fn fingerprint_read<F: Read>(alloc: Global, file: &mut F) -> io::Result<Fingerprint>
    ensures { IfOk result (λ fingerprint. IfSome (F.remaining file.old)
        (λ bytes. fingerprint ≡ fingerprint_of bytes)) }
{
    let mut piece = Vec::new(alloc);
    piece.resize(PIECE, 0u8)?;
    fingerprint_by(file, piece.as_mut_slice())
}
