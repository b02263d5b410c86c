//! What a seat knows, and what a lock is opened with. No value of these is made: clauses alone read them.
use machine_model::Event;
use std::collections::LinkedList;
use std::snapshot::Snapshot;

/// Where a seat stands in its turn.
pub enum Stage {
    Idle,
    /// It has drawn this ticket.
    Waits(u64),
    /// It has the machine in hand.
    Turn,
}

/// What a seat knows.
pub struct View<M, S, A> {
    /// The lanes that it keeps, its own first. A spent seat keeps none.
    pub lanes: LinkedList<u64>,
    /// How many events each lane may keep.
    pub shares: LinkedList<u64>,
    pub stage: Stage,
    /// A beginning of the history.
    pub seen: LinkedList<Event<S, A>>,
    /// What the seats that it took in had seen.
    pub met: LinkedList<LinkedList<Event<S, A>>>,
    /// The events of the lanes that it keeps.
    pub own: LinkedList<Event<S, A>>,
    /// The machine that the lock was opened with. A spent seat has none.
    pub origin: Option<M>,
}

/// What the table is told when it is made.
#[derive(Drop)]
pub struct Start<M> {
    pub machine: Snapshot<M>,
    pub shares: Snapshot<Vec<u64>>,
}
