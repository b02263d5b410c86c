//! The core, as lanes take their steps on it.
ghost use Rattle.std.specs.Prelude.{◌≡◌, ℕ, ◌*◌, ◌<◌, ◌≤◌, [], length, IfOk};
ghost use Rattle.live_core.specs.Bases.{Base, Told, Fits};
ghost use Rattle.live_core.specs.Moves.{lane_in};
ghost use Rattle.live_core.specs.Cores.{core_at};
ghost use Rattle.live_core.specs.Tables.{most_before};
ghost use Rattle.live_core.specs.Views.{CoreView, reply, keeps};

use crate::steps::{Answer, Event, KeyState, Step, Terms};
use crate::table::KeyTable;
use ddt_entry::Key;
use machine_model::Machine;
use std::alloc::{AllocError, Global};
use std::marker::Model;
use std::snapshot::Snapshot;

/// Whatever tells the base of a group, as a pool over its disk does. A core remembers it without a byte.
pub trait TellsBase {
    ghost use Rattle.live_core.specs.Bases.{Told};

    /// The group's keys with their homes, and its writes.
    ghost told: { Self → Told };
}

/// The core of a group. Contracts see it as the base that it was opened with, its history, and how many more events that
/// can take.
#[derive(Drop)]
pub struct Core<T: TellsBase> {
    table: KeyTable,
    told: Snapshot<T>,
}

impl<T: TellsBase> Model for Core<T> {
    ghost use Rattle.std.specs.Prelude.{◌-◌, vec_len, vec_capacity};
    ghost use Rattle.live_core.specs.Views.{CoreView};

    ghost Value = { CoreView };

    ghost view = { λ c. record {
      base = record { told = T.told c.told.value; terms = c.table.terms };
      history = c.table.events.items;
      spare = vec_capacity c.table.events - vec_len c.table.events;
    } };
}

impl<T: TellsBase> Core<T> {
    /// A core with no history and all keys idle, over the base that is told, with room for three events a command. The keys
    /// are the group's; so many homes have a count above 0 as it opens; the quota is in bytes; `number` is the group's, and
    /// `moment` its moment in seconds. The error is want of memory.
    pub fn new(
        alloc: Global,
        told: &T,
        keys: &[Key],
        homes: u64,
        quota: Option<u64>,
        number: u64,
        moment: u64,
        commands: u64,
    ) -> Result<Core<T>, AllocError>
        requires keys { (T.told told.now).keys ≡ keys.now }
        requires few { (length keys.now ≤ 65536) × (commands ≤ 65536) }
        requires homes { homes ≤ most_before }
        ensures told { IfOk result (λ core. core.base.told ≡ T.told told.now) }
        ensures terms { IfOk result (λ core. core.base.terms ≡ record {
          keys = length keys.now;
          homes = homes;
          quota = quota;
          number = number;
          moment = moment;
        }) }
        ensures fresh { IfOk result (λ core. core.history ≡ []) }
        ensures room { IfOk result (λ core. 3 * commands ≤ core.spare) }
    {
        let terms = Terms {
            keys: keys.len() as u64,
            homes,
            quota,
            number,
            moment,
        };
        let table = KeyTable::new(alloc, terms, 3 * commands)?;
        Ok(Core {
            table,
            told: Snapshot::of(told),
        })
    }

    /// The state of a key. A key that the group doesn't have is idle. Takes no memory.
    pub fn state(&self, key: u32) -> KeyState
        ensures { result ≡ (core_at self.now.base.terms self.now.history).states key }
    {
        self.table.state(key)
    }

    /// How many homes have a count above 0 by now. Takes no memory.
    pub fn homes(&self) -> u64
        ensures { result ≡ (core_at self.now.base.terms self.now.history).homes }
    {
        self.table.homes
    }

    /// The events that were kept, oldest first. Takes no memory.
    pub fn history(&self) -> &[Event]
        ensures { result.now ≡ self.now.history }
    {
        &self.table.events
    }
}

impl<T: TellsBase> Machine for Core<T> {
    type Step = Step;

    type Answer = Answer;

    ghost Base = { Base };

    ghost base = { λ core. core.base };

    ghost history = { λ core. core.history };

    ghost spare = { λ core. core.spare };

    ghost lane_of = { lane_in };

    ghost fits = { Fits };

    ghost reply = { reply };

    ghost keeps = { keeps };

    fn apply(&mut self, step: Step) -> Answer {
        self.table.apply(step)
    }
}
