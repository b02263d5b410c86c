ghost use Rattle.std.specs.Prelude.{◌≡◌, ◌/◌, ◌↔◌, IfOk, IsOk};
ghost use Rattle.std.specs.Fs.{metadata_len, file_type, IsFile};
ghost use Rattle.std.specs.IoError.{error_kind};
ghost use Rattle.disk_file.specs.Opening.{fault_of};

use disk_model::SECTOR_BYTES;
use std::fs::{self, File, Files, Metadata, OpenOptions, TryLockError};
use std::io::{Error, ErrorKind};
use std::path::Path;

/// Why a file is no disk.
#[derive(Clone, Copy, Debug, PartialEq, Eq)]
pub enum OpenFault {
    /// The operating system refuses it, another program has it, or it is no regular file.
    Refused,
    /// There was no memory.
    Memory,
}

impl From<Error> for OpenFault {
    fn from(error: Error) -> OpenFault
        ensures { result ≡ fault_of (error_kind error) }
    {
        match error.kind() {
            ErrorKind::OutOfMemory => OpenFault::Memory,
            _ => OpenFault::Refused,
        }
    }
}

/// Opens a file that is there for reads and writes, and takes its lock. A link is followed.
pub(crate) fn open_locked<R: Files<File = File>>(files: &R, path: &str) -> Result<File, OpenFault> {
    let file = OpenOptions::new().read(true).write(true).open(files, path)?;
    take_lock(&file)?;
    Ok(file)
}

/// Makes a file of so many bytes of zeros, and takes its lock. A path that is there, be it a link that leads nowhere,
/// is refused and stays as it is. Where the file can't be that long it is removed again.
pub(crate) fn make_locked<R: Files<File = File>>(
    files: &R,
    path: &str,
    bytes: u64,
) -> Result<File, OpenFault> {
    let file = File::create_new(files, path)?;
    match lay_out(files, &file, path, bytes) {
        Ok(()) => Ok(file),
        Err(fault) => {
            remove(files, path);
            Err(fault)
        }
    }
}

/// Removes the file, if it is still there.
pub(crate) fn remove<R: Files>(files: &R, path: &str) {
    let _ = fs::remove_file(files, path);
}

/// Locks a new file, gives it its length, and makes it last, with its name in its folder.
fn lay_out<R: Files<File = File>>(
    files: &R,
    file: &File,
    path: &str,
    bytes: u64,
) -> Result<(), OpenFault> {
    take_lock(file)?;
    file.set_len(bytes)?;
    file.sync_all()?;
    folder_of(files, path)?.sync_all()?;
    Ok(())
}

/// Opens the folder that a path's last name stands in.
fn folder_of<R: Files<File = File>>(files: &R, path: &str) -> Result<File, OpenFault> {
    let parent = match Path::new(path).parent() {
        Some(parent) => parent.as_str(),
        None => "/",
    };
    let folder = if parent.is_empty() { "." } else { parent };
    Ok(File::open(files, folder)?)
}

/// Takes the lock of an open file, which lasts until the file is closed. Where another open has it this is refused at once.
fn take_lock(file: &File) -> Result<(), OpenFault> {
    match file.try_lock() {
        Ok(()) => Ok(()),
        Err(TryLockError::WouldBlock) => Err(OpenFault::Refused),
        Err(TryLockError::Error(error)) => Err(OpenFault::from(error)),
    }
}

/// How many whole sectors an open file has. What is no regular file has none, and is refused.
pub(crate) fn whole_sectors(found: &Metadata) -> Result<u64, OpenFault>
    ensures regular { IsOk result ↔ IsFile (file_type found.now) }
    ensures count { IfOk result (λ sectors. sectors ≡ metadata_len found.now / 4096) }
{
    if found.is_file() {
        Ok(found.len() / SECTOR_BYTES as u64)
    } else {
        Err(OpenFault::Refused)
    }
}
