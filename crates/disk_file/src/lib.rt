//! A disk in a file.
//!
//! `FileDisk` is the edge at which the program meets the real machine. It passes each call on to one call of the
//! operating system at the sector's place in the file, and a barrier is the file's sync call. What a real file holds
//! nobody knows, so it tells nothing of its contents (`specs/Untold.antt`); it tells how many sectors there are,
//! and counts the calls that failed, as each disk does.
//!
//! The file is opened once, and that open holds the lock by which a second program is refused. Writes and barriers go through
//! it, and each meter is a handle of its own of the same open. No call here waits for another program.
#![tactic(auto)]

mod file_disk;
mod file_meter;
mod opening;

pub use file_disk::FileDisk;
pub use file_meter::FileMeter;
pub use opening::OpenFault;

#[cfg(test)]
mod tests;
