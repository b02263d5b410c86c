//! A core of eight keys over a group that tells no home, for tests that take any step.
ghost use Rattle.std.specs.Prelude.{◌≡◌, ◌*◌, ◌≤◌, true, [], IfOk};
ghost use Rattle.live_core.specs.Bases.{IsHome};
ghost use Rattle.live_core_tests.specs.Groups.{IsAllowed, IsOfGroup};

use ddt_entry::{Home, Key};
use live_core::{Answer, Core, Event, KeyState, Step, TellsBase};
use machine_model::Machine;
use std::alloc::{AllocError, Global};
use std::process::Abort;

/// How many keys a group has.
pub const KEYS: u32 = 8;

/// The group's number.
pub const NUMBER: u64 = 7;

/// The group's moment.
pub const MOMENT: u64 = 1000;

/// The keys of a group of sixteen lanes. Command k of each lane is a write of key k.
#[derive(Drop)]
pub struct Group {
    pub keys: Vec<Key>,
}

impl TellsBase for Group {
    ghost use Rattle.live_core_tests.specs.Groups.{told_of};

    ghost told = { λ group. told_of group.keys.items };
}

/// Eight keys.
fn group_of(alloc: Global) -> Result<Group, AllocError> {
    let mut keys = Vec::new(alloc);
    for len in 1..=KEYS {
        keys.push(Key {
            digest: [0; 32],
            len,
        })?;
    }
    Ok(Group { keys })
}

/// A core under test, and how many more steps it is known to have room for.
#[derive(Drop)]
pub struct Bench {
    core: Core<Group>,
    left: u64,
    ghost of_group: { IsOfGroup core.base },
    ghost room: { left ≤ core.spare },
}

/// Whether a table may have this home before the group.
fn is_home(home: Home) -> bool
    ensures { result ≡ true → IsHome 1000 7 home }
{
    if home.place < 32 || home.place >= 1000 {
        return false;
    }
    if home.birth < 1 || home.birth >= NUMBER {
        return false;
    }
    home.since < 1_099_511_627_776 && home.count <= 1_048_576
}

/// Whether the step may be taken in the group.
pub fn is_allowed(step: Step) -> bool
    ensures { result ≡ true → IsAllowed step }
{
    match step {
        Step::Loaded {
            home: Some(home),
            ..
        } => is_home(home),
        Step::Ref {
            lane,
            index,
            key,
            ..
        } => lane < 16 && index == key && key < KEYS,
        _ => true,
    }
}

/// The step is one that may be taken in the group.
fn assert_allowed(rt: &impl Abort, step: Step)
    ensures { IsAllowed step }
{
    assert!(rt; is_allowed(step), "{step:?} may not be taken");
}

/// A core of the group, with room for three events a command.
pub fn core_of(
    rt: &impl Abort,
    alloc: Global,
    homes: u64,
    quota: Option<u64>,
    commands: u64,
) -> Result<Core<Group>, AllocError>
    ensures of_group { IfOk result (λ core. IsOfGroup core.base) }
    ensures fresh { IfOk result (λ core. core.history ≡ []) }
    ensures room { IfOk result (λ core. 3 * commands ≤ core.spare) }
{
    assert!(rt; homes <= 1_048_576);
    assert!(rt; commands <= 65_536);
    let group = group_of(alloc)?;
    assert!(rt; group.keys.len() <= 65_536);
    Core::new(
        alloc,
        &group,
        group.keys.as_slice(),
        homes,
        quota,
        NUMBER,
        MOMENT,
        commands,
    )
}

impl Bench {
    /// A core without a history, with room for three times as many steps as commands.
    pub fn open(
        rt: &impl Abort,
        alloc: Global,
        homes: u64,
        quota: Option<u64>,
        commands: u64,
    ) -> Result<Bench, AllocError> {
        assert!(rt; commands <= 65_536);
        let core = core_of(rt, alloc, homes, quota, commands)?;
        Ok(Bench {
            core,
            left: 3 * commands,
        })
    }

    /// Takes a step, which has to be allowed.
    pub fn take(&mut self, rt: &impl Abort, step: Step) -> Answer {
        assert!(rt; self.left > 0, "no room is left");
        assert_allowed(rt, step);
        self.left -= 1;
        self.core.apply(step)
    }

    /// The state of a key.
    pub fn state(&self, key: u32) -> KeyState {
        self.core.state(key)
    }

    /// How many homes have a count above 0.
    pub fn homes(&self) -> u64 {
        self.core.homes()
    }

    /// The events that were kept.
    pub fn history(&self) -> &[Event] {
        self.core.history()
    }
}
