//! A machine that goes by its history alone, for each step from the start. It has no table: what an event left is read off its
//! answer.
ghost use Rattle.std.specs.Prelude.{◌≡◌};
ghost use Rattle.live_core.specs.Moves.{is_kept};

use crate::group::{MOMENT, NUMBER};
use ddt_entry::Home;
use live_core::{Answer, Body, Event, KeyState, LiveHome, Step, Verdict};
use std::alloc::AllocError;

/// The states of the eight keys.
pub type States = [KeyState; 8];

/// The group's quota, and the events so far.
#[derive(Drop)]
pub struct Slow {
    pub quota: Option<u64>,
    pub events: Vec<Event>,
}

/// Whether a step with this answer is an event.
pub fn is_event(answer: Answer) -> bool
    ensures { result ≡ is_kept answer }
{
    !matches!(
        answer,
        Answer::Held(_) | Answer::Known(_) | Answer::Again(_)
    )
}

/// A lane and a key.
pub fn of_step(step: Step) -> (u32, u32) {
    match step {
        Step::Claim { lane, key }
        | Step::Loaded { lane, key, .. }
        | Step::Failed { lane, key }
        | Step::Ref { lane, key, .. }
        | Step::Unref { lane, key, .. } => (lane, key),
    }
}

/// The home of a key that is known to have one.
fn home_in(state: KeyState) -> Option<LiveHome> {
    match state {
        KeyState::Known(known) => known,
        _ => None,
    }
}

/// The step's own bytes, where it is a reference with this place.
fn own_body(step: Step, at: u64) -> Option<Body> {
    match step {
        Step::Ref {
            lane,
            index,
            place,
            ..
        } if place == at => Some(Body::Command { lane, index }),
        _ => None,
    }
}

/// The home after a reference: with the bytes of the step where it lies at the step's place, else with those of before.
fn after_ref(state: KeyState, step: Step, home: Home) -> KeyState {
    let before = match home_in(state) {
        Some(live) => live.body,
        None => Body::Disk,
    };
    let body = own_body(step, home.place).unwrap_or(before);
    KeyState::Known(Some(LiveHome { home, body }))
}

/// The home with a reference less.
fn after_unref(state: KeyState) -> KeyState {
    match state {
        KeyState::Known(Some(live)) => KeyState::Known(Some(LiveHome {
            home: Home {
                count: live.home.count.saturating_sub(1),
                ..live.home
            },
            ..live
        })),
        _ => state,
    }
}

/// What an event leaves of its key.
fn left_by(state: KeyState, event: Event) -> KeyState {
    match (event.step, event.answer) {
        (_, Answer::Lead) => KeyState::Led(of_step(event.step).0),
        (Step::Loaded { home: None, .. }, Answer::Done) => KeyState::Known(None),
        (
            Step::Loaded {
                home: Some(home),
                ..
            },
            Answer::Done,
        ) => {
            KeyState::Known(Some(LiveHome {
                home,
                body: Body::Disk,
            }))
        }
        (Step::Failed { .. }, Answer::Done) => KeyState::Idle,
        (_, Answer::New(home)) => after_ref(state, event.step, home),
        (_, Answer::Hit(home)) => match home_in(state) {
            Some(live) => KeyState::Known(Some(LiveHome { home, ..live })),
            None => state,
        },
        (_, Answer::Counted) => after_unref(state),
        _ => state,
    }
}

/// The states after the events.
pub fn states_after(events: &[Event]) -> States {
    let mut states = [KeyState::Idle; 8];
    for event in events {
        let key = of_step(event.step).1;
        if let Some(state) = states.get_mut(key as usize) {
            *state = left_by(*state, *event);
        }
    }
    states
}

/// Whether the state has a home with a count above 0.
pub fn is_live(state: KeyState) -> bool {
    match home_in(state) {
        Some(live) => live.home.count > 0,
        None => false,
    }
}

/// Whether the home lies at this place and has these bytes.
fn is_home(known: Option<LiveHome>, place: u64, body: Body) -> bool {
    match known {
        Some(live) => live.home.place == place && live.body == body,
        None => false,
    }
}

/// Whether the verdict is on what is known of the key.
fn agrees(verdict: Verdict, known: Option<LiveHome>) -> bool {
    match verdict {
        Verdict::Trust => true,
        Verdict::Absent => known.is_none(),
        Verdict::Same { place, body } => is_home(known, place, body),
        Verdict::Differs { place, body } => is_home(known, place, body),
    }
}

/// The answer to a reference to a home that the write may share, if there is one.
fn answer_new(shared: Option<LiveHome>, place: u64, has_room: bool) -> Answer {
    if !has_room {
        return Answer::Quota;
    }
    match shared {
        Some(live) => Answer::New(Home {
            since: MOMENT,
            count: 1,
            ..live.home
        }),
        None => Answer::New(Home {
            place,
            birth: NUMBER,
            since: MOMENT,
            count: 1,
        }),
    }
}

/// The answer to a reference.
fn answer_ref(known: Option<LiveHome>, verdict: Verdict, place: u64, has_room: bool) -> Answer {
    if !agrees(verdict, known) {
        return Answer::Again(known);
    }
    let differs = matches!(verdict, Verdict::Differs { .. });
    match known {
        Some(live) if live.home.count > 0 && differs => Answer::Clash,
        Some(live) if live.home.count > 0 => {
            Answer::Hit(Home {
                count: live.home.count.saturating_add(1),
                ..live.home
            })
        }
        Some(live) if !differs => answer_new(Some(live), place, has_room),
        _ => answer_new(None, place, has_room),
    }
}

/// The answer to a free.
fn answer_unref(known: Option<LiveHome>, place: u64, birth: u64) -> Answer {
    match known {
        Some(live) if live.home.count > 0 && live.home.place == place && live.home.birth == birth =>
            Answer::Counted,
        _ => Answer::Loose,
    }
}

/// The answer to a step at the state of its key.
fn answer_at(state: KeyState, step: Step, has_room: bool) -> Answer {
    match (step, state) {
        (Step::Claim { .. }, KeyState::Idle) => Answer::Lead,
        (Step::Claim { .. }, KeyState::Led(leader)) => Answer::Held(leader),
        (Step::Claim { .. }, KeyState::Known(known)) => Answer::Known(known),
        (Step::Loaded { lane, .. } | Step::Failed { lane, .. }, KeyState::Led(leader))
            if lane == leader => Answer::Done,
        (Step::Ref { verdict, place, .. }, KeyState::Known(known)) => answer_ref(
            known, verdict, place, has_room,
        ),
        (Step::Unref { place, birth, .. }, KeyState::Known(known)) => answer_unref(
            known, place, birth,
        ),
        _ => Answer::Stray,
    }
}

/// Whether a quota has room for one more key.
fn has_room(homes: u64, quota: Option<u64>) -> bool {
    match quota {
        None => true,
        Some(limit) => homes.saturating_add(1).saturating_mul(256) <= limit,
    }
}

impl Slow {
    /// The answer to a step at these states, where there are so many homes.
    pub fn take(&mut self, states: &States, homes: u64, step: Step) -> Result<Answer, AllocError> {
        let state = match states.get(of_step(step).1 as usize) {
            Some(state) => *state,
            None => return Ok(Answer::Stray),
        };
        let answer = answer_at(state, step, has_room(homes, self.quota));
        if is_event(answer) {
            self.events.push(Event { step, answer })?;
        }
        Ok(answer)
    }
}
