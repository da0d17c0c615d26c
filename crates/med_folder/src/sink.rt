// A stream of the process as a sink.
ghost use Rattle.std.specs.Prelude.{◌≡◌, ◌≤◌, ◌<◌, ℕ, Ok, None, length, IfOk};

use med_outside::{Sink, SinkFailed};
use std::io;
use std::io::ErrorKind;
use std::marker::Model;

/// The standard output or the standard error.
#[derive(Drop)]
pub struct RealSink<P> {
    stream: P,
    faults: u64,
}

impl<P> Model for RealSink<P> {
    ghost use Rattle.std.specs.Prelude.{ℕ};

    ghost Value = { ℕ };

    ghost view = { λ s. s.faults };
}

impl<P> RealSink<P> {
    /// The stream as a sink without a fault.
    pub fn new(stream: P) -> RealSink<P>
        ensures { result ≡ 0 }
    {
        RealSink { stream, faults: 0 }
    }
}

// A write that a signal interrupts has written nothing, and is made again.
fn write_some<P: Print>(stream: &P, bytes: &[u8]) -> io::Result<usize>
    ensures bound { IfOk result (λ n. n ≤ length bytes.now) }
    ensures moves { IfOk result (λ n. 0 < length bytes.now → 0 < n) }
{
    for _ in 0..u64::MAX {
        match stream.write_some(bytes) {
            Ok(0) if !bytes.is_empty() => return Err(io::Error::from(ErrorKind::WriteZero)),
            Ok(count) => return Ok(count),
            Err(error) if error.kind() == ErrorKind::Interrupted => {}
            Err(error) => return Err(error),
        }
    }
    Err(io::Error::from(ErrorKind::TimedOut))
}

impl<P: Print> Sink for RealSink<P> {
    ghost state = { λ s. record { taken = None; faults = s } };

    fn write(&mut self, bytes: &[u8]) -> Result<usize, SinkFailed> {
        match write_some(&self.stream, bytes) {
            Ok(count) => Ok(count),
            Err(_) => {
                self.faults = self.faults.saturating_add(1);
                Err(SinkFailed)
            }
        }
    }
}
