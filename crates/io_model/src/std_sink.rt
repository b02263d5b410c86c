ghost use Rattle.std.specs.Prelude.{◌≡◌, ◌<◌, length, IfOk, OnOk, OnErr};
ghost use Rattle.std.specs.Io.{WritesAtMost};
ghost use Rattle.std.specs.Io.KnownBytes.{WriteAppends};
ghost use Rattle.io_model.specs.Outside.{HasCause};
ghost use Rattle.io_model.specs.Calls.{one_more};
ghost use Rattle.io_model.specs.Streams.{Adapted};

use crate::sink::Sink;
use disk_model::Failed;
use std::io::Write;
use std::marker::Model;

/// A writer of std as a sink. It tells of the bytes written what the writer tells, and counts each
/// error, and each answer that nothing was taken of a part that isn't empty.
#[derive(Debug, Drop)]
pub struct StdSink<W> {
    writer: W,
    faults: u64,
}

impl<W> Model for StdSink<W> {
    ghost use Rattle.io_model.specs.Streams.{Adapted};

    ghost Value = { Adapted W };

    ghost view = { λ sink. record { stream = sink.writer; faults = sink.faults } };
}

impl<W> StdSink<W> {
    /// A sink over a writer. Takes no memory.
    pub fn new(writer: W) -> StdSink<W>
        ensures { result ≡ record { stream = writer; faults = 0 } }
    {
        StdSink { writer, faults: 0 }
    }
}

impl<W: Write> Sink for StdSink<W> {
    ghost written = { λ sink. W.contents sink.stream };

    ghost faults = { λ sink. sink.faults };

    fn write(&mut self, part: &[u8]) -> Result<usize, Failed>
        ensures bound { WritesAtMost result part.now }
        ensures some { IfOk result (λ n. 0 < length part.now → 0 < n) }
        ensures bytes { WriteAppends (W.contents self.old.stream) (W.contents self.new.stream)
            result part.now }
        ensures cause { HasCause self.old.faults self.new.faults result }
        ensures ok { OnOk result (self.new.faults ≡ self.old.faults) }
        ensures err { OnErr result (self.new.faults ≡ one_more self.old.faults) }
    {
        match self.writer.write(part) {
            Ok(count) if count > 0 || part.is_empty() => Ok(count),
            _ => {
                self.faults = self.faults.saturating_add(1);
                Err(Failed)
            }
        }
    }
}
