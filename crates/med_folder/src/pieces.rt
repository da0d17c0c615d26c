// Pieces of a file, read one behind the other.
ghost use Rattle.std.specs.Prelude.{◌≡◌, ◌≤◌, ◌<◌, ◌+◌, ℕ, List, Option, IfOk, IfSome, OnOk, length, string_bytes, take};
ghost use Rattle.std.specs.Io.KnownBytes.{Consumes, IsAtEnd};
ghost use Rattle.med_outside.specs.Pieces.{EndsInRange, piece_size};

use crate::measure::read_some;
use med_outside::{PIECE, Piece};
use std::alloc::Global;
use std::io;
use std::io::{ErrorKind, Read, Seek, SeekFrom};

// How many bytes of a file are read first, and how many next. Room is cleared before it is read into,
// so a small file isn't given the room of a piece.
const SMALL: usize = 16_384;

const MIDDLE: usize = 131_072;

// Reads until the room is full or the file ends, and answers how many bytes were read.
fn fill<F: Read>(file: &mut F, room: &mut [u8]) -> io::Result<usize>
    ensures bound { IfOk result (λ count. count ≤ length room.new) }
    ensures len { length room.new ≡ length room.old }
    ensures bytes { IfOk result (λ count. Consumes (F.remaining file.old) (F.remaining file.new)
        (take count room.new)) }
    ensures end { IfOk result
        (λ count. count < length room.old → IsAtEnd (F.remaining file.new)) }
{
    let mut filled = 0usize;
    'reads: for _ in 0..u64::MAX {
        if filled >= room.len() {
            return Ok(filled);
        }
        let count = read_some(file, &mut room[filled..])?;
        if count == 0 {
            return Ok(filled);
        }
        filled += count;
    }
    Err(io::Error::from(ErrorKind::TimedOut))
}

// Reads on behind the bytes that were read, until there are so many or the file ends. Together they
// are what the file has lost since those before were begun.
fn read_up_to<F: Read>(file: &mut F, bytes: &mut Vec<u8>, size: usize) -> io::Result<()>
    requires { length bytes.old.items ≤ size }
    ensures bytes { OnOk result
        ((first : Option (List ℕ)) → Consumes first (F.remaining file.old) bytes.old.items
        → Consumes first (F.remaining file.new) bytes.new.items) }
    ensures bound { OnOk result (length bytes.new.items ≤ size) }
    ensures end { OnOk result
        (length bytes.new.items < size → IsAtEnd (F.remaining file.new)) }
{
    let start = bytes.as_slice().len();
    bytes.resize(size, 0u8)?;
    let count = fill(file, &mut bytes.as_mut_slice()[start..])?;
    bytes.truncate(start + count);
    Ok(())
}

// The bytes that a file has left, up to a piece. It isn't full only where the file ended.
fn next_piece<F: Read>(alloc: Global, file: &mut F) -> io::Result<Piece>
    ensures bytes { IfOk result (Consumes (F.remaining file.old) (F.remaining file.new)) }
    ensures end { IfOk result
        (λ piece. length piece < piece_size → IsAtEnd (F.remaining file.new)) }
{
    let mut bytes = Vec::new(alloc);
    read_up_to(file, &mut bytes, SMALL)?;
    if bytes.len() < SMALL {
        return Ok(Piece::from_vec(bytes));
    }
    read_up_to(file, &mut bytes, MIDDLE)?;
    if bytes.len() < MIDDLE {
        return Ok(Piece::from_vec(bytes));
    }
    read_up_to(file, &mut bytes, PIECE)?;
    Ok(Piece::from_vec(bytes))
}

// The place behind a piece that begins at a place. Where it has no number, it refuses.
fn end_of(from: u64, piece: &Piece) -> io::Result<u64>
    ensures { IfOk result (λ end. end ≡ from + length piece.now) }
{
    match from.checked_add(piece.bytes().len() as u64) {
        Some(end) => Ok(end),
        None => Err(io::Error::from(ErrorKind::FileTooLarge)),
    }
}

/// A file that is read piece by piece, under a path, and the place where its next piece begins.
#[derive(Drop)]
pub(crate) struct Reading<F> {
    pub(crate) file: F,
    pub(crate) path: String,
    pub(crate) place: u64,
}

/// A file that was opened, set to a place.
pub(crate) fn reading_from<F: Seek + Drop>(
    file: F,
    path: String,
    from: u64,
) -> io::Result<Reading<F>>
    ensures path { IfOk result (λ reading. string_bytes reading.path ≡ string_bytes path) }
    ensures place { IfOk result (λ reading. reading.place ≡ from) }
{
    let mut file = file;
    if from > 0 {
        file.seek(SeekFrom::Start(from))?;
    }
    Ok(Reading {
        file,
        path,
        place: from,
    })
}

/// The file that is being read, where it has the path and its next piece begins at the place.
pub(crate) fn going_on<F: Drop>(
    reading: Option<Reading<F>>,
    path: &str,
    from: u64,
) -> Option<Reading<F>>
    ensures path { IfSome result (λ reading. string_bytes reading.path ≡ path.now) }
    ensures place { IfSome result (λ reading. reading.place ≡ from) }
{
    let reading = reading?;
    if reading.place == from && reading.path.as_str() == path {
        Some(reading)
    } else {
        None
    }
}

/// The next piece of a file, and the file itself where the piece is full.
pub(crate) fn read_on<F: Read + Drop>(
    alloc: Global,
    reading: Reading<F>,
) -> io::Result<(Piece, Option<Reading<F>>)>
    ensures range { IfOk result (λ read. EndsInRange reading.place read.0) }
{
    let Reading {
        mut file,
        path,
        place,
    } = reading;
    let piece = next_piece(alloc, &mut file)?;
    let place = end_of(place, &piece)?;
    if piece.bytes().len() < PIECE {
        return Ok((piece, None));
    }
    Ok((piece, Some(Reading { file, path, place })))
}
