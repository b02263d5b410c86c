//! A machine that counts its steps, and keeps them all or none.
ghost use Rattle.std.specs.Prelude.{◌≡◌, ℕ, ◌+◌, ◌-◌, ◌<◌, ◌≤◌, ◌==◌, Bool, not, [], length, if◌then◌else◌, vec_len, vec_capacity, IfOk};

use machine_model::{Event, Machine};
use std::alloc::{AllocError, Global};

/// Its step is the number of the lane that takes it.
#[derive(Drop)]
pub struct Tally {
    keeps: bool,
    taken: u64,
    events: Vec<Event<u32, u64>>,
}

impl Tally {
    /// A machine with room for so many events.
    pub fn new(alloc: Global, keeps: bool, room: u64) -> Result<Tally, AllocError>
        ensures fresh { IfOk result (λ m. m.events.items ≡ []) }
        ensures room { IfOk result (λ m. room ≤ vec_capacity m.events - vec_len m.events) }
    {
        let mut events = Vec::new(alloc);
        events.reserve(room as usize)?;
        Ok(Tally {
            keeps,
            taken: 0,
            events,
        })
    }

    /// How many steps were taken.
    pub fn taken(&self) -> u64 {
        self.taken
    }

    /// How many events there are.
    pub fn events(&self) -> u64 {
        self.events.len() as u64
    }
}

impl Machine for Tally {
    type Step = u32;

    type Answer = u64;

    ghost Base = { Bool };

    ghost base = { λ m. m.keeps };

    ghost history = { λ m. m.events.items };

    ghost spare = { λ m. vec_capacity m.events - vec_len m.events };

    ghost lane_of = { λ step. step };

    ghost fits = { λ base step. Unit {0} };

    // The number of the step, or 0 where none is kept.
    ghost reply = { λ base history step. if base then length history + 1 else 0 };

    ghost keeps = { λ step answer. not (answer == 0) };

    fn apply(&mut self, step: u32) -> u64 {
        self.taken = self.taken.wrapping_add(1);
        if !self.keeps {
            return 0;
        }
        let answer = self.events.len() as u64 + 1;
        self.events.push_reserved(Event { step, answer });
        answer
    }
}
