ghost use Rattle.std.specs.Prelude.{◌≡◌, ◌<◌, ◌++◌, [], length, Some, IsErr, IfOk, OnOk, OnErr};
ghost use Rattle.std.specs.Io.{WritesAtMost};
ghost use Rattle.std.specs.Io.KnownBytes.{WriteAppends};
ghost use Rattle.io_model.specs.Outside.{HasCause};
ghost use Rattle.io_model.specs.Calls.{no_calls, NextIsListed, one_call, one_fault};

use crate::planned_calls::PlannedCalls;
use crate::sink::Sink;
use disk_model::Failed;
use std::alloc::Global;
use std::marker::Model;

/// A sink that keeps what is written to it, and tells it. It fails at the calls that it was told to
/// fail, and where there is no memory for the bytes.
#[derive(Debug, Drop)]
pub struct MemSink {
    bytes: Vec<u8>,
    calls: PlannedCalls,
}

impl Model for MemSink {
    ghost use Rattle.io_model.specs.Memory.{Kept};

    ghost Value = { Kept };

    ghost view = { λ sink. record { written = sink.bytes.items; calls = sink.calls } };
}

impl MemSink {
    /// An empty sink. Its calls whose numbers, counted from 1, stand in `fails` fail. Takes no memory.
    pub fn new(alloc: Global, fails: Vec<u64>) -> MemSink
        ensures { result ≡ record { written = []; calls = no_calls fails.items } }
    {
        MemSink {
            bytes: Vec::new(alloc),
            calls: PlannedCalls::new(fails),
        }
    }

    /// The bytes that were written.
    pub fn bytes(&self) -> &[u8]
        ensures { result.now ≡ self.now.written }
    {
        self.bytes.as_slice()
    }
}

impl Sink for MemSink {
    ghost written = { λ sink. Some sink.written };

    ghost faults = { λ sink. sink.calls.failed };

    fn write(&mut self, part: &[u8]) -> Result<usize, Failed>
        ensures bound { WritesAtMost result part.now }
        ensures some { IfOk result (λ n. 0 < length part.now → 0 < n) }
        ensures bytes { WriteAppends (Some self.old.written) (Some self.new.written) result part.now }
        ensures cause { HasCause self.old.calls.failed self.new.calls.failed result }

        // It fails where it is told to, or for want of memory, and otherwise takes the whole part.
        ensures listed { NextIsListed self.old.calls → IsErr result }
        ensures whole { IfOk result (λ n. n ≡ length part.now) }
        ensures ok { OnOk result (self.new
            ≡ record self.old { written = self.old.written ++ part.now; calls = one_call self.old.calls }) }
        ensures err { OnErr result (self.new ≡ record self.old { calls = one_fault self.old.calls }) }
    {
        if self.calls.next_is_listed() || self.bytes.extend_from_slice(part).is_err() {
            self.calls.count_fault();
            return Err(Failed);
        }
        self.calls.count_call();
        Ok(part.len())
    }
}
