use crate::answers::Answers;
use reserved_list::ReservedList;

/// Places, as sector numbers.
pub type PlaceList = ReservedList<u64>;

/// The notes of a group's lanes, one for each lane that has commands, in rising order.
pub type LaneNotes = ReservedList<LaneNote>;

/// The notes of a session's groups, in order.
pub type GroupNotes = ReservedList<GroupNote>;

/// What a group's commands are.
#[derive(Clone, Copy, Debug, PartialEq, Eq)]
pub enum Kind {
    Lanes,
    Prune,
    Settings,
}

/// How a group ended.
#[derive(Clone, Copy, Debug, PartialEq, Eq)]
pub enum Outcome {
    Sealed,
    /// It would have needed so many sectors where so many were free, and did nothing.
    NoSpace { need: u64, free: u64 },
    /// It was begun, and it isn't known that it was sealed.
    Cut,
}

/// What a lane did in a group.
#[derive(Drop)]
pub struct LaneNote {
    pub lane: u32,
    /// One answer for each of the lane's commands.
    pub answers: Answers,
    /// The fresh places that the lane's writes got, in order.
    pub fresh: PlaceList,
    /// How many of the lane's reads of the device failed.
    pub faults: u64,
}

/// What a group did.
#[derive(Drop)]
pub struct GroupNote {
    /// The group's number; of a group without room, the one that it would have had.
    pub number: u64,
    pub kind: Kind,
    pub outcome: Outcome,
    /// How many homes a prune took, else 0.
    pub taken: u64,
    pub lanes: LaneNotes,
}

/// What a session did.
#[derive(Drop)]
pub struct Session {
    pub groups: GroupNotes,
    /// The newest group that the session has imported or sealed, and 0 before the first.
    pub sealed: u64,
}

/// What is wrong with a line of a command file, in the order in which it is tested.
#[derive(Clone, Copy, Debug, PartialEq, Eq)]
pub enum BadKind {
    /// The file has too many bytes.
    Size,
    /// None of the lines that may stand there.
    Form,
    /// A number or a content's length is out of range.
    Range,
    /// Too many items, reads, or commands of a group.
    Many,
    /// The file ends inside a group.
    Open,
}
