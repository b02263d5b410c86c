//! The table of steps, row by row, at the state of one key. Each function is one word of `specs/Moves.antt`.
ghost use Rattle.std.specs.Prelude.{◌≡◌, ◌+◌, ◌<◌, ◌^◌};
ghost use Rattle.live_core.specs.Moves.{stray, claim, lead, on_disk, make, hit, take_up, share, part, again, body_eq, is_its, refer, counts, counted, unrefer, on_known, move_of, key_in, is_kept, references, count_in};

use crate::steps::{Answer, Body, KeyState, LiveHome, Step, Terms, Verdict};
use ddt_entry::Home;
use quota_rule::allows;

/// What a step answers, the state that it leaves of its key, and the number of homes with a count above 0 then.
#[derive(Clone, Copy)]
pub struct Move {
    pub answer: Answer,
    pub state: KeyState,
    pub homes: u64,
}

/// A step without a meaning at this state.
pub fn stray(state: KeyState, homes: u64) -> Move
    ensures { result ≡ stray state homes }
{
    Move {
        answer: Answer::Stray,
        state,
        homes,
    }
}

/// A lane asks for the state of a key.
fn claim(lane: u32, state: KeyState, homes: u64) -> Move
    ensures { result ≡ claim lane state homes }
{
    let (answer, state) = match state {
        KeyState::Idle => (Answer::Lead, KeyState::Led(lane)),
        KeyState::Led(other) => (Answer::Held(other), state),
        KeyState::Known(known) => (Answer::Known(known), state),
    };
    Move {
        answer,
        state,
        homes,
    }
}

/// The leader's word, after which the key is in another state.
fn lead(lane: u32, next: KeyState, state: KeyState, homes: u64) -> Move
    ensures { result ≡ lead lane next state homes }
{
    match state {
        KeyState::Led(leader) if leader == lane => Move {
            answer: Answer::Done,
            state: next,
            homes,
        },
        _ => stray(state, homes),
    }
}

/// A home as the table has it.
fn on_disk(home: Option<Home>) -> Option<LiveHome>
    ensures { result ≡ on_disk home }
{
    match home {
        None => None,
        Some(home) => Some(LiveHome {
            home,
            body: Body::Disk,
        }),
    }
}

/// A new home at a place, where the quota allows it.
fn make(terms: &Terms, body: Body, place: u64, known: Option<LiveHome>, homes: u64) -> Move
    requires { homes + 1 < 2 ^ 64 }
    ensures { result ≡ make terms.now body place known homes }
{
    if !allows(homes, terms.quota) {
        return Move {
            answer: Answer::Quota,
            state: KeyState::Known(known),
            homes,
        };
    }
    let home = Home {
        place,
        birth: terms.number,
        since: terms.moment,
        count: 1,
    };
    Move {
        answer: Answer::New(home),
        state: KeyState::Known(Some(LiveHome { home, body })),
        homes: homes + 1,
    }
}

/// The home with one reference more.
fn hit(live: LiveHome, homes: u64) -> Move
    requires { live.home.count + 1 < 2 ^ 64 }
    ensures { result ≡ hit live homes }
{
    let home = Home {
        count: live.home.count + 1,
        ..live.home
    };
    Move {
        answer: Answer::Hit(home),
        state: KeyState::Known(Some(LiveHome { home, ..live })),
        homes,
    }
}

/// The home with its first reference since nothing counted it, where the quota allows it.
fn take_up(terms: &Terms, live: LiveHome, homes: u64) -> Move
    requires { homes + 1 < 2 ^ 64 }
    ensures { result ≡ take_up terms.now live homes }
{
    if !allows(homes, terms.quota) {
        return Move {
            answer: Answer::Quota,
            state: KeyState::Known(Some(live)),
            homes,
        };
    }
    let home = Home {
        since: terms.moment,
        count: 1,
        ..live.home
    };
    Move {
        answer: Answer::New(home),
        state: KeyState::Known(Some(LiveHome { home, ..live })),
        homes: homes + 1,
    }
}

/// A reference to the home that there is.
fn share(terms: &Terms, live: LiveHome, homes: u64) -> Move
    requires room { homes + 1 < 2 ^ 64 }
    requires count { live.home.count + 1 < 2 ^ 64 }
    ensures { result ≡ share terms.now live homes }
{
    if live.home.count > 0 {
        hit(live, homes)
    } else {
        take_up(terms, live, homes)
    }
}

/// A reference beside a home with other bytes.
fn part(terms: &Terms, body: Body, place: u64, live: LiveHome, homes: u64) -> Move
    requires { homes + 1 < 2 ^ 64 }
    ensures { result ≡ part terms.now body place live homes }
{
    if live.home.count > 0 {
        Move {
            answer: Answer::Clash,
            state: KeyState::Known(Some(live)),
            homes,
        }
    } else {
        make(terms, body, place, Some(live), homes)
    }
}

/// The home isn't the one that was compared.
fn again(known: Option<LiveHome>, homes: u64) -> Move
    ensures { result ≡ again known homes }
{
    Move {
        answer: Answer::Again(known),
        state: KeyState::Known(known),
        homes,
    }
}

/// Both stand for the same bytes.
fn is_body(body: Body, other: Body) -> bool
    ensures { result ≡ body_eq body other }
{
    body == other
}

/// The block that was compared is this home's.
fn is_its(live: LiveHome, place: u64, body: Body) -> bool
    ensures { result ≡ is_its live place body }
{
    live.home.place == place && is_body(live.body, body)
}

/// What a write asks for where its key has no home.
fn refer_to_none(terms: &Terms, body: Body, verdict: Verdict, place: u64, homes: u64) -> Move
    requires { homes + 1 < 2 ^ 64 }
    ensures { result ≡ refer terms.now body verdict place None homes }
{
    match verdict {
        Verdict::Trust | Verdict::Absent => make(terms, body, place, None, homes),
        Verdict::Same { .. } | Verdict::Differs { .. } => again(None, homes),
    }
}

/// What a write asks for where its key has a home.
fn refer_to(
    terms: &Terms,
    body: Body,
    verdict: Verdict,
    place: u64,
    live: LiveHome,
    homes: u64,
) -> Move
    requires room { homes + 1 < 2 ^ 64 }
    requires count { live.home.count + 1 < 2 ^ 64 }
    ensures { result ≡ refer terms.now body verdict place (Some live) homes }
{
    match verdict {
        Verdict::Trust => share(terms, live, homes),
        Verdict::Same {
            place: at,
            body: its,
        } if is_its(live, at, its) => { share(terms, live, homes) }
        Verdict::Differs {
            place: at,
            body: its,
        } if is_its(live, at, its) => { part(terms, body, place, live, homes) }
        _ => again(Some(live), homes),
    }
}

/// What a write asks for, at what is known of its key.
fn refer(
    terms: &Terms,
    body: Body,
    verdict: Verdict,
    place: u64,
    known: Option<LiveHome>,
    homes: u64,
) -> Move
    requires room { homes + 1 < 2 ^ 64 }
    requires count { references known + 1 < 2 ^ 64 }
    ensures { result ≡ refer terms.now body verdict place known homes }
{
    match known {
        None => refer_to_none(terms, body, verdict, place, homes),
        Some(live) => refer_to(terms, body, verdict, place, live, homes),
    }
}

/// The home counts a pointer with this place and birth.
fn counts(live: LiveHome, place: u64, birth: u64) -> bool
    ensures { result ≡ counts live place birth }
{
    live.home.count > 0 && live.home.place == place && live.home.birth == birth
}

/// What a free gives up, at what is known of its pointer's key.
fn unrefer(place: u64, birth: u64, known: Option<LiveHome>, homes: u64) -> Move
    ensures { result ≡ unrefer place birth known homes }
{
    match known {
        Some(live) if counts(live, place, birth) => one_less(live, homes),
        _ => Move {
            answer: Answer::Loose,
            state: KeyState::Known(known),
            homes,
        },
    }
}

/// The home with one reference less. With its last one it counts among the homes no more.
fn one_less(live: LiveHome, homes: u64) -> Move
    requires { 0 < live.home.count }
    ensures { result ≡ counted live homes }
{
    let home = Home {
        count: live.home.count - 1,
        ..live.home
    };
    Move {
        answer: Answer::Counted,
        state: KeyState::Known(Some(LiveHome { home, ..live })),
        homes: if live.home.count == 1 {
            homes.saturating_sub(1)
        } else {
            homes
        },
    }
}

/// The row of the table for a step at the state of its key.
pub fn move_of(terms: &Terms, step: Step, state: KeyState, homes: u64) -> Move
    requires room { homes + 1 < 2 ^ 64 }
    requires count { count_in state + 1 < 2 ^ 64 }
    ensures { result ≡ move_of terms.now step state homes }
{
    match (step, state) {
        (Step::Claim { lane, .. }, _) => claim(lane, state, homes),
        (Step::Loaded { lane, home, .. }, _) => {
            lead(lane, KeyState::Known(on_disk(home)), state, homes)
        }
        (Step::Failed { lane, .. }, _) => lead(lane, KeyState::Idle, state, homes),
        (
            Step::Ref {
                lane,
                index,
                verdict,
                place,
                ..
            },
            KeyState::Known(known),
        ) => refer(
            terms,
            Body::Command { lane, index },
            verdict,
            place,
            known,
            homes,
        ),
        (Step::Unref { place, birth, .. }, KeyState::Known(known)) => {
            unrefer(place, birth, known, homes)
        }
        (Step::Ref { .. } | Step::Unref { .. }, _) => stray(state, homes),
    }
}

/// The key that a step is on.
pub fn key_in(step: Step) -> u32
    ensures { result ≡ key_in step }
{
    match step {
        Step::Claim { key, .. }
        | Step::Loaded { key, .. }
        | Step::Failed { key, .. }
        | Step::Ref { key, .. }
        | Step::Unref { key, .. } => key,
    }
}

/// Whether a step with this answer joins the history.
pub fn is_kept(answer: Answer) -> bool
    ensures { result ≡ is_kept answer }
{
    !matches!(
        answer,
        Answer::Held(_) | Answer::Known(_) | Answer::Again(_)
    )
}
