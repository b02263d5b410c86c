//! Whole sessions, from the bytes of a command file to the bytes of its report.
//!
//! Nothing here is used by another crate: each test runs sessions as the program does, over a disk and streams in
//! memory, and compares what comes out, and what is on the disk then, with what the rules of the pool say of the
//! file. `reports` has the text of whole reports and the notes of a session, `appended` has what the logs of the
//! table take of a disk, `flushing` has how a long log is flushed in pieces, also where a sync is cut short,
//! `opening` has pools that are made, found, or not there, `refusals` has files and words that a session refuses,
//! `kinds` has settings and prunes, `failures` has reads and streams that fail at some call, `crashes` has disks
//! that fail or crash at each call, and `reference` runs the plain program of `plain_run` beside the session and
//! compares the two. `rows` has command files of all commands, also of those that the session doesn't read yet, and
//! what the plain program reports of them (`lines`, `replay`, `telling`). `lasting` has a pool in a file, which is
//! opened anew for each session; all others run over a disk in memory.
//!
//! The expected texts are written out by hand from the rules; none was taken from a run. `files` has the
//! command files that several of them use, and `running` the one way in which all of them run a session.
#![tactic(auto)]

#[cfg(test)]
mod appended;
#[cfg(test)]
mod comparing;
#[cfg(test)]
mod crashes;
#[cfg(test)]
mod failures;
#[cfg(test)]
mod files;
#[cfg(test)]
mod flushing;
#[cfg(test)]
mod kinds;
#[cfg(test)]
mod lasting;
#[cfg(test)]
mod lines;
#[cfg(test)]
mod opening;
#[cfg(test)]
mod reference;
#[cfg(test)]
mod refusals;
#[cfg(test)]
mod replay;
#[cfg(test)]
mod reports;
#[cfg(test)]
mod rows;
#[cfg(test)]
mod running;
#[cfg(test)]
mod telling;
