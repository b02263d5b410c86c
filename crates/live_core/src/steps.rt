//! The steps of lanes on the keys of a group, and what they answer.

use ddt_entry::Home;

/// Where the bytes of a home's block stand.
#[derive(Clone, Copy, Debug, PartialEq, Eq)]
pub enum Body {
    /// At the home's place on the disk.
    Disk,
    /// In the command of this lane and index, which wrote them in this group.
    Command { lane: u32, index: u32 },
}

/// A home, with where the bytes of its block stand.
#[derive(Clone, Copy, Debug, PartialEq, Eq)]
pub struct LiveHome {
    pub home: Home,
    pub body: Body,
}

/// What the group knows of a key.
#[derive(Clone, Copy, Debug, PartialEq, Eq)]
pub enum KeyState {
    /// Nobody has asked for it.
    Idle,
    /// This lane looks it up in the table.
    Led(u32),
    /// Its home, or that it has none.
    Known(Option<LiveHome>),
}

/// What a write found out about its key's home before it asks for a reference.
#[derive(Clone, Copy, Debug, PartialEq, Eq)]
pub enum Verdict {
    /// The lane trusts keys: whatever home there is has its bytes.
    Trust,
    /// There was no home to compare with.
    Absent,
    /// The block at this place has its bytes.
    Same { place: u64, body: Body },
    /// The block at this place has other bytes.
    Differs { place: u64, body: Body },
}

/// A step of a lane. Keys are numbers, from 0 to the number of the group's keys less 1; an index is that of a command
/// among its lane's.
#[derive(Clone, Copy, Debug, PartialEq, Eq)]
pub enum Step {
    /// Asks for the state of a key, to look it up where nobody has.
    Claim {
        lane: u32,
        key: u32,
    },
    /// The leader tells what the table says.
    Loaded {
        lane: u32,
        key: u32,
        home: Option<Home>,
    },
    /// The leader couldn't read the table.
    Failed {
        lane: u32,
        key: u32,
    },
    /// A write asks for a reference to its key's home; a new home lies at `place`.
    Ref {
        lane: u32,
        index: u32,
        key: u32,
        verdict: Verdict,
        place: u64,
    },
    /// A free gives up the reference of a pointer with this place and birth.
    Unref {
        lane: u32,
        index: u32,
        key: u32,
        place: u64,
        birth: u64,
    },
}

/// What a step answers.
#[derive(Clone, Copy, Debug, PartialEq, Eq)]
pub enum Answer {
    /// The lane leads the key now.
    Lead,
    /// This lane leads the key.
    Held(u32),
    /// What is known of the key.
    Known(Option<LiveHome>),
    /// The leader's word was taken.
    Done,
    /// The home after the step, whose count became 1.
    New(Home),
    /// The home after the step, whose count rose by 1.
    Hit(Home),
    /// The quota has no room for a key more.
    Quota,
    /// The home has other bytes.
    Clash,
    /// The home is another one by now: compare again, with this one.
    Again(Option<LiveHome>),
    /// The home's count fell by 1.
    Counted,
    /// The home isn't that of the pointer, or is counted by none.
    Loose,
    /// The step has no meaning in this state.
    Stray,
}

/// A step of a history, with its answer.
pub type Event = machine_model::Event<Step, Answer>;

/// What a group opens with, as far as answers rest on it.
#[derive(Clone, Copy, Debug, PartialEq, Eq)]
pub struct Terms {
    /// How many keys the group has.
    pub keys: u64,
    /// How many homes have a count above 0 before the group.
    pub homes: u64,
    /// The pool's quota in bytes, if it has one.
    pub quota: Option<u64>,
    /// The group's number.
    pub number: u64,
    /// The group's moment, in seconds.
    pub moment: u64,
}
