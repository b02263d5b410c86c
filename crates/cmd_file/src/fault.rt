ghost use Rattle.std.specs.Prelude.{◌≡◌, ℕ};
ghost use Rattle.cmd_file.specs.Faults.{fault_at};
ghost use Rattle.cmd_file.specs.declared.fault.FileFault.TheVariants.{Memory};
ghost use Rattle.cmd_file.specs.declared.fault.LineFault.TheVariants.{Memory as NoMemory};

use io_model::ReadFault;
use pool_model::BadKind;
use std::alloc::{AllocError, AllocFailed};
use thiserror::Error;

/// Why there is no command file.
#[derive(Debug, Drop, Error)]
pub enum FileFault {
    /// The first bad line, counted from 1 (0 for the file as a whole), and what is wrong with it.
    #[error("bad file: line {line}: {kind:?}")]
    Bad { line: u64, kind: BadKind },
    /// A read of the source failed.
    #[error("source fault")]
    SourceFault,
    /// There was no memory for the file.
    #[error("out of memory")]
    Memory,
}

/// Why a line isn't taken.
#[derive(Clone, Copy)]
pub enum LineFault {
    /// What is wrong with it.
    Bad(BadKind),
    /// There was no memory for it.
    Memory,
}

/// None of the lines that may stand there.
pub const FORM: LineFault = LineFault::Bad(BadKind::Form);

/// A number or a content's length is out of its range.
pub const RANGE: LineFault = LineFault::Bad(BadKind::Range);

/// An item, a command or a read too many.
pub const MANY: LineFault = LineFault::Bad(BadKind::Many);

/// What the fault of this line, counted from 1, is to the whole file.
pub fn at_line(line: u64, fault: LineFault) -> FileFault
    ensures { result ≡ fault_at line fault }
{
    match fault {
        LineFault::Bad(kind) => FileFault::Bad { line, kind },
        LineFault::Memory => FileFault::Memory,
    }
}

impl From<ReadFault> for FileFault {
    ghost use Rattle.cmd_file.specs.Faults.{fault_of_read};

    ghost from_gives = { λ fault result. result ≡ fault_of_read fault };

    fn from(fault: ReadFault) -> Self {
        match fault {
            ReadFault::Source => FileFault::SourceFault,
            ReadFault::Memory => FileFault::Memory,
        }
    }
}

impl From<AllocError> for LineFault {
    ghost from_gives = { λ _ fault. fault ≡ NoMemory };

    fn from(_: AllocError) -> Self {
        LineFault::Memory
    }
}

impl<T: Drop> From<AllocFailed<T>> for LineFault {
    ghost from_gives = { λ _ fault. fault ≡ NoMemory };

    fn from(_: AllocFailed<T>) -> Self {
        LineFault::Memory
    }
}
