ghost use Rattle.std.specs.Prelude.{◌≡◌, ◌++◌, IfOk, string_bytes, codes, decimal};
ghost use Rattle.session.specs.Faults.{code_of, fault_text, kind_name, status_of};

use pool_model::{BadKind, SyncFault};
use std::alloc::{AllocError, Global};

/// How a session ended.
#[derive(Clone, Copy, Debug, PartialEq, Eq)]
pub enum Status {
    /// The file was read to its end, and every item was done.
    Done,
    /// The words are none that a session answers to.
    Usage,
    /// The first bad line of the command file, counted from 1 (0 for the file as a whole), and why.
    BadFile { line: u64, kind: BadKind },
    /// The command file could not be read.
    SourceFault,
    /// The report could not be written.
    SinkFault,
    /// The disk could not be read.
    ReadFault,
    /// A meter, a write or a barrier of the disk failed.
    WriteFault,
    /// There is no pool on the disk.
    NoPool,
    /// What stands at this sector is not what the image has to have there.
    Damaged(u64),
    /// There was no memory.
    OutOfMemory,
    /// There is a pool already, whose newest group has this number.
    PoolExists(u64),
    /// The disk has so many sectors, too few or too many for a pool.
    BadSize(u64),
    /// The pool's newest group has this number, and too few numbers are left behind it.
    LastGroup(u64),
}

impl Status {
    /// The number that a program with this status ends with (docs/COMMANDS.md, "Statuses").
    pub fn code(&self) -> u8
        ensures { result ≡ code_of self.now }
    {
        match self {
            Status::Done => 0,
            Status::Usage => 1,
            Status::BadFile { .. } => 2,
            Status::SourceFault => 3,
            Status::SinkFault => 4,
            Status::ReadFault => 5,
            Status::WriteFault => 6,
            Status::NoPool => 7,
            Status::Damaged(_) => 8,
            Status::OutOfMemory => 9,
            Status::PoolExists(_) => 10,
            Status::BadSize(_) => 11,
            Status::LastGroup(_) => 13,
        }
    }
}

/// The status of a session that a fault of the disk ends.
pub(crate) fn told(fault: SyncFault) -> Status
    ensures { result ≡ status_of fault }
{
    match fault {
        SyncFault::ReadFault => Status::ReadFault,
        SyncFault::WriteFault | SyncFault::GateFault => Status::WriteFault,
        SyncFault::Damaged(sector) => Status::Damaged(sector),
        SyncFault::Memory => Status::OutOfMemory,
    }
}

/// What a program says on standard error of a status, without a line feed; nothing at `Done`
/// (docs/COMMANDS.md, "Statuses"). The error is want of memory.
pub fn fault_text(alloc: Global, status: &Status) -> Result<String, AllocError>
    ensures { IfOk result (λ text. string_bytes text ≡ fault_text status.now) }
{
    match status {
        Status::Done => Ok(String::new(alloc)),
        Status::Usage => String::from_str(alloc, "usage"),
        Status::BadFile { line, kind } => bad_file_text(alloc, *line, *kind),
        Status::SourceFault => String::from_str(alloc, "source fault"),
        Status::SinkFault => String::from_str(alloc, "sink fault"),
        Status::ReadFault => String::from_str(alloc, "read fault"),
        Status::WriteFault => String::from_str(alloc, "write fault"),
        Status::NoPool => String::from_str(alloc, "no pool"),
        Status::Damaged(sector) => numbered_text(alloc, "damaged sector ", *sector),
        Status::OutOfMemory => String::from_str(alloc, "out of memory"),
        Status::PoolExists(group) => numbered_text(alloc, "pool exists: group ", *group),
        Status::BadSize(sectors) => numbered_text(alloc, "bad size: ", *sectors),
        Status::LastGroup(group) => numbered_text(alloc, "last group: ", *group),
    }
}

/// A number behind what it is.
fn numbered_text(alloc: Global, name: &str, number: u64) -> Result<String, AllocError>
    ensures { IfOk result (λ text. string_bytes text ≡ name.now ++ decimal number) }
{
    let number = number.to_string(alloc)?;
    let mut text = String::from_str(alloc, name)?;
    text.push_str(number.as_str())?;
    Ok(text)
}

/// Which line of a command file is bad, and why.
fn bad_file_text(alloc: Global, line: u64, kind: BadKind) -> Result<String, AllocError>
    ensures { IfOk result (λ text. string_bytes text ≡ codes "bad file: line " ++ decimal line ++ codes ": " ++ kind_name kind) }
{
    let number = line.to_string(alloc)?;
    let mut text = String::from_str(alloc, "bad file: line ")?;
    text.push_str(number.as_str())?;
    text.push_str(": ")?;
    text.push_str(kind_name(kind))?;
    Ok(text)
}

/// What is wrong with a line, in a word.
fn kind_name(kind: BadKind) -> &'static str
    ensures { result.now ≡ kind_name kind }
{
    match kind {
        BadKind::Size => "size",
        BadKind::Form => "form",
        BadKind::Range => "range",
        BadKind::Many => "many",
        BadKind::Open => "open",
    }
}
