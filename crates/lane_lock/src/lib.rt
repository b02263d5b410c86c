//! A lock that several threads take turns at, and that keeps one legal history of the machine in it.
//!
//! It is a ticket lock over two atomic words and a slot of `atomic_table`. A lane draws a ticket from the
//! first word, looks at the second until its ticket is served, takes the machine out of the slot, applies
//! its step, puts the machine back, and passes the turn on by raising the second word. Each lane has a
//! `Seat`, which knows how much of the history the lane has seen and which events of it are the lane's own.
//!
//! What the words, the slot and the seats say together is the rule, in `specs/Rules.antt`. Each step keeps
//! it, by a lemma of its own in `proofs/Steps.antt` and `proofs/Ends.antt`.
//!
//! `act` tells that there is a legal history which begins with all that the seat had seen, and at which
//! the machine gives the answer; afterwards the seat has seen it. `close` gives the machine whose history
//! begins with what each seat had seen, and in which the events of each lane are exactly that seat's own.
//! Nothing is said of whose turn comes when, nor that a waiting lane ever gets its turn.
//!
//! A group's lanes share one machine through this lock, and nothing else takes a lock.
#![tactic(auto)]

mod lane_table;
mod lock;
mod seat;
mod turns;
mod view;

pub use lock::LaneLock;
pub use seat::{Seat, lane};
