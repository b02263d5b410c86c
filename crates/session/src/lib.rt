//! A whole session over a disk: from the words and the bytes of a command file to the bytes of its report.
//!
//! `run` is the call that the program makes, and its contract is what the repository promises
//! (`specs/Running.antt`): the source was read to its end and its bytes are these items; the session's notes
//! are those of a run of the items over a pool of plain pointers, from what the disk held at entry on; the
//! bytes written are the report of the pools that this run gives, or a front of it; the disk holds the pool
//! that was sealed last; and a crash at any moment leaves what stood, or one of the pools that were begun.
//! Each other status says why it came and what it leaves. `inspect` is for the words that run no file.
//!
//! The pool is opened first (`opening`): imported (`finding`), or made where there is none (`making`). Then
//! the items are done one after another (`running`), each by `item`: a group (`group_item`) is closed over the
//! pool in memory, which goes by its kind (`closing`, `pruning`), is synced, and only then reported; a `stat` or
//! an `import` is a `plain_item`. Proofs go the same way: `specs/StageClosing.antt` says what each kind of group has
//! to bring, `specs/StageItems.antt` what one item comes to, `specs/StageGoing.antt` what the items so far have, and
//! `specs/Stopping.antt` where a session ended that didn't do them all. Nothing here speaks of pages or bytes of the
//! image: that is `txg_sync`'s and `pool_import`'s.
#![tactic(auto)]

mod closing;
mod finding;
mod group_item;
mod item;
mod looking;
mod making;
mod opening;
mod plain_item;
mod pruning;
mod running;
mod status;
mod words;

pub use looking::inspect;
pub use running::run;
pub use status::{Status, fault_text};
pub use words::{Look, Word, looking_words, running_words};
