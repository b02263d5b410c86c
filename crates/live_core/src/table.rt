//! The keys of a group with their states, and the history that led there.
ghost use Rattle.std.specs.Prelude.{◌≡◌, ℕ, ◌+◌, ◌*◌, ◌<◌, ◌≤◌, ◌++◌, [], length, vec_len, vec_capacity, slice_set, IfOk};
ghost use Rattle.machine_model.specs.Histories.{kept_of};
ghost use Rattle.live_core.specs.Views.{keeps};
ghost use Rattle.live_core.specs.Cores.{core_at, moved, answer_at};
ghost use Rattle.live_core.specs.Tables.{AreStates, AreSmall, IsSmallLoad, most_before};

use crate::moves::{Move, is_kept, key_in, move_of, stray};
use crate::steps::{Answer, Event, KeyState, Step, Terms};
use std::alloc::{AllocError, Global};

/// The states of a group's keys, how many homes have a count above 0, and the events so far.
#[derive(Drop)]
pub struct KeyTable {
    pub terms: Terms,
    pub homes: u64,
    pub states: Vec<KeyState>,
    pub events: Vec<Event>,
    ghost wide: { length states.items ≡ terms.keys },
    ghost states_are: { AreStates terms events.items states.items },
    ghost homes_are: { homes ≡ (core_at terms events.items).homes },
    ghost few: { homes ≤ most_before + length events.items },
    ghost small: { AreSmall terms events.items },
}

/// Puts a state in its place, where there is one.
fn put(states: &mut Vec<KeyState>, key: u32, state: KeyState)
    ensures { states.new.items ≡ slice_set states.old.items key state }
{
    if let Some(place) = states.get_mut(key as usize) {
        *place = state;
    }
}

/// Notes a step with its answer, if it is kept. Takes no memory.
fn keep(events: &mut Vec<Event>, step: Step, answer: Answer)
    requires { vec_len events.old < vec_capacity events.old }
    ensures items { events.new.items ≡ events.old.items ++ kept_of keeps step answer }
    ensures capacity { vec_capacity events.new ≡ vec_capacity events.old }
{
    if is_kept(answer) {
        events.push_reserved(Event { step, answer });
    }
}

impl KeyTable {
    /// All keys idle, with room for so many events. The error is want of memory.
    pub fn new(alloc: Global, terms: Terms, room: u64) -> Result<KeyTable, AllocError>
        requires { terms.homes ≤ most_before }
        ensures terms { IfOk result (λ table. table.terms ≡ terms) }
        ensures fresh { IfOk result (λ table. table.events.items ≡ []) }
        ensures room { IfOk result (λ table. room ≤ vec_capacity table.events) }
    {
        let mut states = Vec::new(alloc);
        states.resize(terms.keys as usize, KeyState::Idle)?;
        let mut events = Vec::new(alloc);
        events.reserve(room as usize)?;
        Ok(KeyTable {
            terms,
            homes: terms.homes,
            states,
            events,
        })
    }

    /// The state of a key; a key that the group doesn't have is idle.
    pub fn state(&self, key: u32) -> KeyState
        ensures { result ≡ (core_at self.now.terms self.now.events.items).states key }
    {
        match self.states.get(key as usize) {
            Some(state) => *state,
            None => KeyState::Idle,
        }
    }

    /// What a step comes to.
    fn moved(&self, step: Step) -> Move
        ensures { result ≡ moved self.now.terms (core_at self.now.terms self.now.events.items) step }
    {
        let key = key_in(step);
        let state = self.state(key);
        if (key as u64) < self.terms.keys {
            move_of(&self.terms, step, state, self.homes)
        } else {
            stray(state, self.homes)
        }
    }

    /// Takes a step, and notes it if it is kept. A home that is handed in has a count of at most 1,048,576. Takes no memory.
    pub fn apply(&mut self, step: Step) -> Answer
        requires room { vec_len self.old.events < vec_capacity self.old.events }
        requires load { IsSmallLoad step }
        ensures answer { result ≡ answer_at self.old.terms self.old.events.items step }
        ensures terms { self.new.terms ≡ self.old.terms }
        ensures events { self.new.events.items ≡ self.old.events.items ++ kept_of keeps step result }
        ensures capacity { vec_capacity self.new.events ≡ vec_capacity self.old.events }
    {
        let next = self.moved(step);
        put(&mut self.states, key_in(step), next.state);
        self.homes = next.homes;
        keep(&mut self.events, step, next.answer);
        next.answer
    }
}
