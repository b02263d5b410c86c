//! A machine that keeps a history of its steps, as several threads may share one.
//!
//! A `Machine` is a value with one method, `apply`: it takes a step, answers it, and may note the step
//! with its answer as an `Event` of its history. What the answer is follows from the machine's base, which
//! no step changes, and from the history so far. `specs/Histories.antt` says what a legal history is, and
//! which part of it is a lane's own.
//!
//! `lane_lock` takes any machine and keeps one history of it for up to sixteen lanes. The core of a group
//! is such a machine. Both have the same `Event`, so that nobody turns one kind of event into another.
#![tactic(auto)]

mod machine;

pub use machine::{Event, Machine};
