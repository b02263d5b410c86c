ghost use Rattle.std.specs.Prelude.{◌≡◌, ℕ, ◌+◌, ◌^◌, ◌<◌, ◌≤◌, List, Option, length, IfOk, OnErr, IsErrOf};
ghost use Rattle.std.specs.Io.{ReadsAtMost};
ghost use Rattle.std.specs.Io.KnownBytes.{ReadConsumes, Consumes};
ghost use Rattle.io_model.specs.Outside.{HasCause, Rose, KeepsBehind, HasRead, ConsumesUpTo};
ghost use Rattle.io_model.specs.declared.source.ReadFault.TheVariants.{Source as SourceFault, Memory as OutOfMemory};

use disk_model::Failed;
use std::alloc::{AllocError, Global};

/// What bytes are read from.
pub trait Source {
    /// The bytes that are left, where the source tells them.
    ghost left: { Self → Option (List ℕ) };

    /// How many calls failed. It never falls, and stops at 2^64 - 1.
    ghost faults: { Self → ℕ };

    /// Reads the next bytes into the front of a buffer, and answers how many.
    /// An answer of 0 for a buffer that isn't empty is the end of the input. A call that fails takes nothing.
    fn read(&mut self, out: &mut [u8]) -> Result<usize, Failed>
        ensures bound { ReadsAtMost result out.new }
        ensures bytes { ReadConsumes (left self.old) (left self.new) result out.new }
        ensures behind { KeepsBehind result out.old out.new }
        ensures cause { HasCause (faults self.old) (faults self.new) result };
}

/// Why a source wasn't read to its end.
#[derive(Clone, Copy, Debug, PartialEq, Eq)]
pub enum ReadFault {
    /// A read failed.
    Source,
    /// There was no memory for the bytes.
    Memory,
}

impl From<Failed> for ReadFault {
    ghost from_gives = { λ _ fault. fault ≡ SourceFault };

    fn from(_: Failed) -> Self {
        ReadFault::Source
    }
}

impl From<AllocError> for ReadFault {
    ghost from_gives = { λ _ fault. fault ≡ OutOfMemory };

    fn from(_: AllocError) -> Self {
        ReadFault::Memory
    }
}

/// How many bytes one call asks for at the most.
const PIECE: usize = 4096;

/// Reads a source to its end, or one byte past the limit, and no further. So an answer of more bytes
/// than the limit is of an input that is longer, and any other is the whole input.
/// The error `Memory` is want of memory for the bytes read.
pub fn read_whole<S: Source>(alloc: Global, input: &mut S, limit: u64) -> Result<Vec<u8>, ReadFault>
    requires { limit < 2 ^ 32 }
    ensures within { IfOk result (λ bytes. length bytes.items ≤ limit + 1) }
    ensures bytes { IfOk result (λ bytes. Consumes (S.left input.old) (S.left input.new) bytes.items) }
    ensures whole { IfOk result (λ bytes.
        length bytes.items ≤ limit → HasRead (S.left input.old) (S.left input.new) bytes.items) }
    ensures never_past { ConsumesUpTo (S.left input.old) (S.left input.new) (limit + 1) }
    ensures cause { IsErrOf result ReadFault.Source → Rose (S.faults input.old) (S.faults input.new) }
    ensures count { S.faults input.old ≤ S.faults input.new }
{
    let most = limit as usize + 1;
    let mut bytes = Vec::new(alloc);
    let mut buffer = [0u8; PIECE];
    'pieces: while bytes.len() < most {
        let room = PIECE.min(most - bytes.len());
        let count = input.read(&mut buffer[..room])?;
        if count == 0 {
            return Ok(bytes);
        }
        bytes.extend_from_slice(&buffer[..count])?;
    }
    Ok(bytes)
}
