ghost use Rattle.std.specs.Prelude.{◌≡◌, OnOk, OnErr};
ghost use Rattle.std.specs.Io.{ReadsAtMost};
ghost use Rattle.std.specs.Io.KnownBytes.{ReadConsumes};
ghost use Rattle.io_model.specs.Outside.{HasCause, KeepsBehind};
ghost use Rattle.io_model.specs.Calls.{one_more};
ghost use Rattle.io_model.specs.Streams.{Adapted};

use crate::source::Source;
use disk_model::Failed;
use std::io::Read;
use std::marker::Model;

/// How many bytes one call asks the reader for at the most.
const PIECE: usize = 4096;

/// A reader of std as a source. It tells of the bytes left what the reader tells, and counts each error.
#[derive(Debug, Drop)]
pub struct StdSource<R> {
    reader: R,
    faults: u64,
}

impl<R> Model for StdSource<R> {
    ghost use Rattle.io_model.specs.Streams.{Adapted};

    ghost Value = { Adapted R };

    ghost view = { λ source. record { stream = source.reader; faults = source.faults } };
}

impl<R> StdSource<R> {
    /// A source over a reader. Takes no memory.
    pub fn new(reader: R) -> StdSource<R>
        ensures { result ≡ record { stream = reader; faults = 0 } }
    {
        StdSource { reader, faults: 0 }
    }
}

impl<R: Read> Source for StdSource<R> {
    ghost left = { λ source. R.remaining source.stream };

    ghost faults = { λ source. source.faults };

    // A reader may write behind the count that it answers, so it is given a buffer of its own.
    fn read(&mut self, out: &mut [u8]) -> Result<usize, Failed>
        ensures bound { ReadsAtMost result out.new }
        ensures bytes { ReadConsumes (R.remaining self.old.stream) (R.remaining self.new.stream)
            result out.new }
        ensures behind { KeepsBehind result out.old out.new }
        ensures cause { HasCause self.old.faults self.new.faults result }
        ensures ok { OnOk result (self.new.faults ≡ self.old.faults) }
        ensures err { OnErr result (self.new.faults ≡ one_more self.old.faults) }
    {
        let mut buffer = [0u8; PIECE];
        let room = PIECE.min(out.len());
        match self.reader.read(&mut buffer[..room]) {
            Ok(count) => {
                out[..count].copy_from_slice(&buffer[..count]);
                Ok(count)
            }
            Err(_) => {
                self.faults = self.faults.saturating_add(1);
                Err(Failed)
            }
        }
    }
}
