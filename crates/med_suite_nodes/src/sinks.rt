// A sink in memory, and a stream as a sink.
use med_folder::RealSink;
use med_mem::MemSink;
use med_outside::Sink;
use med_suite_rows::calls::is_number;
use std::alloc::Global;
use std::cell::Cell;
use std::fmt::Display;
use std::io;
use std::io::ErrorKind;

// A write answers how many bytes the sink took, or `failed`.
fn is_right<O: Sink>(alloc: Global, sink: &mut O, row: &str) -> Option<bool> {
    let (text, wanted) = row.split_once(" => ")?;
    match sink.write(text.as_bytes()) {
        Ok(count) => is_number(alloc, count as u64, wanted),
        Err(_) => Some(wanted == "failed"),
    }
}

// The first row that the sink answers otherwise.
fn first_wrong<'a, O: Sink>(alloc: Global, sink: &mut O, table: &'a str) -> Option<&'a str> {
    for row in table.split('\n') {
        if is_right(alloc, sink, row) != Some(true) {
            return Some(row);
        }
    }
    None
}

const LIMITED: &str = "\
abc => 3
defg => 2
h => failed
 => 0";

// Whether a sink of five bytes answers as the rows say, and has then taken these bytes.
fn is_filled(alloc: Global) -> Option<bool> {
    let mut sink = MemSink::new(alloc, 5).ok()?;
    let wrong = first_wrong(alloc, &mut sink, LIMITED);
    Some(wrong.is_none() && sink.bytes() == b"abcde".as_slice())
}

#[test]
fn a_sink_is_full_at_its_limit(rt: HostRuntime) {
    assert_eq!(rt; is_filled(rt.alloc()), Some(true));
}

// A stream that is interrupted, takes two bytes, takes none, is broken, and takes none again.
#[derive(Drop)]
struct Stream {
    turn: Cell<u8>,
}

impl Print for Stream {
    fn print<D: Display + Drop>(&self, _: D) -> io::Result<()> {
        Err(io::Error::from(ErrorKind::Unsupported))
    }

    fn println<D: Display + Drop>(&self, _: D) -> io::Result<()> {
        Err(io::Error::from(ErrorKind::Unsupported))
    }

    fn write_all(&self, _: &[u8]) -> io::Result<()> {
        Err(io::Error::from(ErrorKind::Unsupported))
    }

    fn write_some(&self, bytes: &[u8]) -> io::Result<usize> {
        let turn = self.turn.get();
        self.turn.set(turn.saturating_add(1));
        match turn {
            0 => Err(io::Error::from(ErrorKind::Interrupted)),
            1 => Ok(bytes.len().min(2)),
            3 => Err(io::Error::from(ErrorKind::BrokenPipe)),
            _ => Ok(0),
        }
    }
}

const BROKEN: &str = "\
abc => 2
abc => failed
abc => failed
 => 0";

#[test]
fn a_write_that_is_interrupted_is_made_again(rt: HostRuntime) {
    let mut sink = RealSink::new(Stream { turn: Cell::new(0) });
    assert_eq!(rt; first_wrong(rt.alloc(), &mut sink, BROKEN), None);
}
