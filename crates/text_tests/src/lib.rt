//! What comes in and what goes out: tests of the streams, the command file, the report and the statistics.
//!
//! Nothing here is used by another crate. `streams` reads sources and writes sinks that give and take in pieces and
//! fail, `command_files` reads files, `bad_files` bad ones, `reports` writes the text of each kind of item, and
//! `statistics` counts pointers. They are one crate, apart from what they test, since a crate with tests is proved a
//! second time for them. What is compared goes through `comparing`.
#![tactic(auto)]

#[cfg(test)]
mod bad_files;
#[cfg(test)]
mod command_files;
#[cfg(test)]
mod comparing;
#[cfg(test)]
mod reports;
#[cfg(test)]
mod statistics;
#[cfg(test)]
mod streams;
