// A sink that keeps what it takes, up to a limit.
ghost use Rattle.std.specs.Prelude.{◌≡◌, ◌≤◌, [], Ok, is_err, IfOk, OnOk, OnErr, length, min, take};
ghost use Rattle.med_mem.specs.Failing.{unmade, with_step};
ghost use Rattle.med_mem.specs.Taken.{room_of, is_refused, with_more, with_fault, with_writes};

use crate::failing::FailingCalls;
use med_base::NoMemory;
use med_outside::{Sink, SinkFailed};
use std::alloc::Global;
use std::marker::Model;

/// A sink that takes bytes up to a limit over all writes.
#[derive(Drop)]
pub struct MemSink {
    taken: Vec<u8>,
    limit: usize,
    calls: FailingCalls,
}

impl Model for MemSink {
    ghost use Rattle.std.specs.Prelude.{◌≤◌, length};
    ghost use Rattle.std.specs.Vec.{vec_capacity};
    ghost use Rattle.med_mem.specs.Taken.{Taken};

    ghost Value = { Taken };

    ghost view = { λ s. record { bytes = s.taken.items; limit = s.limit; calls = s.calls } };

    ghost invariant = { λ s. (length s.taken.items ≤ s.limit) × (s.limit ≤ vec_capacity s.taken) };
}

impl MemSink {
    /// A sink that takes at most so many bytes, with the memory for them.
    pub fn new(alloc: Global, limit: usize) -> Result<MemSink, NoMemory>
        ensures { IfOk result (λ sink. sink
            ≡ record { bytes = []; limit = limit; calls = unmade [] }) }
    {
        let taken = Vec::with_capacity(alloc, limit)?;
        Ok(MemSink {
            taken,
            limit,
            calls: FailingCalls::none(alloc),
        })
    }

    /// Lets the call of that number fail, counted from 1 over all calls of `write`. Behind the last
    /// value of a number no call fails for it.
    pub fn fail_at(&mut self, step: u64) -> Result<(), NoMemory>
        ensures ok { OnOk result (self.new ≡ with_writes (with_step step self.old.calls) self.old) }
        ensures err { OnErr result (self.new ≡ self.old) }
    {
        self.calls.fail_at(step)
    }

    /// The bytes that it has taken.
    pub fn bytes(&self) -> &[u8]
        ensures value { result.now ≡ self.now.bytes }
        ensures bound { length self.now.bytes ≤ self.now.limit }
    {
        self.taken.as_slice()
    }
}

impl Sink for MemSink {
    ghost use Rattle.std.specs.Prelude.{Some};

    ghost state = { λ s. record { taken = Some s.bytes; faults = s.calls.faults } };

    fn write(&mut self, bytes: &[u8]) -> Result<usize, SinkFailed>
        ensures count { IfOk result (λ n. n ≡ min (length bytes.now) (room_of self.old)) }
        ensures ok { IfOk result (λ n. self.new ≡ with_more (take n bytes.now) self.old) }
        ensures some { result ≡ Ok 0 → length bytes.now ≡ 0 }
        ensures failed { is_err result ≡ is_refused bytes.now self.old }
        ensures err { OnErr result (self.new ≡ with_fault self.old) }
        ensures later { self.old.calls.faults ≤ self.new.calls.faults }
    {
        if self.calls.next_fails() {
            return Err(SinkFailed);
        }
        let room = self.limit - self.taken.as_slice().len();
        let count = bytes.len().min(room);
        if count == 0 && !bytes.is_empty() {
            self.calls.add_faults(1);
            return Err(SinkFailed);
        }
        match self.taken.extend_from_slice(&bytes[..count]) {
            Ok(()) => Ok(count),
            Err(_) => {
                self.calls.add_faults(1);
                Err(SinkFailed)
            }
        }
    }
}
