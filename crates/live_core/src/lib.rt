//! The core of a group: the one machine that all its lanes take steps on.
//!
//! A group's keys are numbered. Of each key the core knows a state: nobody has asked for it (`Idle`), a lane looks it up in the
//! table (`Led`), or its home is known, if it has one (`Known`). Beside these it knows how many homes have a count above 0, for
//! the quota. A lane claims a key. The first one leads: it reads the table, outside the core, and tells what it has found
//! (`Loaded`), or that it couldn't read (`Failed`), and another lane may lead. Once the key is known a write asks for a
//! reference (`Ref`), with what it has found out about the home's bytes, and a free gives one up (`Unref`). Where another lane
//! was faster and the home isn't the one that the write has compared, it compares again (`Again`).
//!
//! What each step answers and leaves stands in `specs/Moves.antt`, as one table by the state of the key; `specs/Cores.antt` goes
//! from the table to a history. A step looks at one key, by its number, and at no other. Steps that change nothing (a claim of a
//! key that is led or known, a write that has to compare again) are answered and not kept; every other one joins the
//! history with its answer. The state follows from what the group opened with and from the history.
//!
//! What holds of every list of steps of every lane (one leader, one load, counts and the number of homes that add up, the
//! history) are the clauses of the functions in `laws`. `Core` is a `Machine`, so that the lanes of a group can share one through
//! a lock, and `TellsBase` is what its opener gives beside the numbers: the keys, their homes in the table, and the writes.
#![tactic(auto)]

mod group_core;
mod laws;
mod moves;
mod steps;
mod table;
mod worked;

pub use group_core::{Core, TellsBase};
pub use steps::{Answer, Body, Event, KeyState, LiveHome, Step, Terms, Verdict};
