//! Where the program's bytes come from and where they go.
//!
//! A `Source` is read and a `Sink` is written to, and either may fail. Their meaning is written down
//! once, in the clauses of two traits: which bytes are left to read, which were written, and a count of
//! faults. The count never falls, and a call answers `Failed` only where it rose, so that a body above
//! cannot make a fault up. `read_whole` and `write_whole` are the loops over them that the rest uses.
//!
//! `Failed` and the counts are those of a disk (`disk_model`).
//!
//! `MemSource` and `MemSink` keep their bytes in memory, tell them, and fail at the calls that they
//! were told to fail: tests run the program over them. `StdSource` and `StdSink` pass on std's readers
//! and writers, and tell of the bytes what those tell, for a real stream nothing.
//!
//! The command file is read through a source, and every report goes out through a sink.
#![tactic(auto)]

mod mem_sink;
mod mem_source;
mod planned_calls;
mod sink;
mod source;
mod std_sink;
mod std_source;

pub use disk_model::Failed;
pub use mem_sink::MemSink;
pub use mem_source::MemSource;
pub use sink::{Sink, write_whole};
pub use source::{ReadFault, Source, read_whole};
pub use std_sink::StdSink;
pub use std_source::StdSource;
