ghost use Rattle.std.specs.Prelude.{ℕ, ◌<◌, List, Option, length, IfOk, OnOk, OnErr};
ghost use Rattle.std.specs.Io.{WritesAtMost};
ghost use Rattle.std.specs.Io.KnownBytes.{Appends, WriteAppends};
ghost use Rattle.io_model.specs.Outside.{HasCause, TookFront};

use disk_model::Failed;

/// What bytes are written to.
pub trait Sink {
    /// The bytes that were written so far, where the sink tells them.
    ghost written: { Self → Option (List ℕ) };

    /// How many calls failed. It never falls, and stops at 2^64 - 1.
    ghost faults: { Self → ℕ };

    /// Writes a front of a part, and answers how many bytes, at least 1 of a part that isn't empty.
    /// A call that fails writes nothing.
    fn write(&mut self, part: &[u8]) -> Result<usize, Failed>
        ensures bound { WritesAtMost result part.now }
        ensures some { IfOk result (λ n. 0 < length part.now → 0 < n) }
        ensures bytes { WriteAppends (written self.old) (written self.new) result part.now }
        ensures cause { HasCause (faults self.old) (faults self.new) result };
}

/// Writes the whole of a text. After a failure some front of it has been written. Takes no memory.
pub fn write_whole<W: Sink>(out: &mut W, text: &[u8]) -> Result<(), Failed>
    ensures all { OnOk result (Appends (W.written out.old) (W.written out.new) text.now) }
    ensures front { OnErr result (TookFront (W.written out.old) (W.written out.new) text.now) }
    ensures cause { HasCause (W.faults out.old) (W.faults out.new) result }
{
    let mut rest = text;
    'parts: while !rest.is_empty() {
        let count = out.write(rest)?;
        rest = rest.split_at(count).1;
    }
    Ok(())
}
