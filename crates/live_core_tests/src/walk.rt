//! A long walk: steps of sixteen lanes over eight keys, by a seed, that a core and the slow machine take side by side.
ghost use Rattle.std.specs.Prelude.{◌<◌};

use crate::group::{Bench, KEYS};
use crate::slow::{Slow, States, is_live, of_step, states_after};
use ddt_entry::Home;
use live_core::{Body, KeyState, LiveHome, Step, Verdict};
use std::alloc::Global;
use std::process::Abort;
use std::test::Fail;

/// A quota of six keys.
const QUOTA: Option<u64> = Some(6 * 256);

/// Numbers that follow from a seed, as Knuth's linear congruential generator for 64 bits gives them.
#[derive(Clone, Copy)]
struct Numbers {
    state: u64,
}

impl Numbers {
    /// A number below a bound.
    fn below(&mut self, bound: u32) -> u32
        requires { 0 < bound }
    {
        self.state = self
            .state
            .wrapping_mul(6_364_136_223_846_793_005)
            .wrapping_add(1_442_695_040_888_963_407);
        ((self.state >> 33) % bound as u64) as u32
    }
}

/// The home of a key in the table: none, or with 2, 0 or 1 references.
pub fn in_table(key: u32) -> Option<Home> {
    let count = match key % 4 {
        0 => return None,
        1 => 2,
        2 => 0,
        _ => 1,
    };
    Some(Home {
        place: 40 + key as u64,
        birth: 3,
        since: 500,
        count,
    })
}

/// The place and the body of what is known of a key, or of a block that is no home.
fn seen_of(state: KeyState) -> (u64, Body) {
    match state {
        KeyState::Known(Some(LiveHome { home, body })) => (home.place, body),
        _ => (40, Body::Disk),
    }
}

/// A verdict, mostly on what is known.
fn verdict_at(numbers: &mut Numbers, state: KeyState) -> Verdict {
    let (place, body) = seen_of(state);
    match numbers.below(8) {
        0 | 1 => Verdict::Trust,
        2 => Verdict::Absent,
        3 | 4 => Verdict::Same { place, body },
        5 => Verdict::Differs { place, body },
        6 => Verdict::Same { place: 41, body },
        _ => Verdict::Differs {
            place,
            body: Body::Disk,
        },
    }
}

/// A free, mostly of a pointer to what is known.
fn free_at(numbers: &mut Numbers, state: KeyState, lane: u32, key: u32) -> Step {
    let (place, birth) = match state {
        KeyState::Known(Some(live)) => (live.home.place, live.home.birth),
        _ => (40, 3),
    };
    let birth = if numbers.below(8) == 0 { 5 } else { birth };
    Step::Unref {
        lane,
        index: key,
        key,
        place,
        birth,
    }
}

/// The lane that leads the key, or now and then another.
fn leader_at(numbers: &mut Numbers, state: KeyState, lane: u32) -> u32 {
    match state {
        KeyState::Led(leader) if numbers.below(4) > 0 => leader,
        _ => lane,
    }
}

/// The next step at these states; a new home would lie at the place.
fn choose(numbers: &mut Numbers, states: &States, place: u64) -> Step {
    let lane = numbers.below(16);
    let key = numbers.below(KEYS);
    let state = states.get(key as usize).copied().unwrap_or(KeyState::Idle);
    match numbers.below(20) {
        0..=2 => Step::Claim { lane, key },
        3 => Step::Loaded {
            lane: leader_at(numbers, state, lane),
            key,
            home: in_table(key),
        },
        4..=5 => Step::Failed {
            lane: leader_at(numbers, state, lane),
            key,
        },
        6..=12 => Step::Ref {
            lane,
            index: key,
            key,
            verdict: verdict_at(numbers, state),
            place,
        },
        _ => free_at(numbers, state, lane, key),
    }
}

/// The homes with a count above 0: in the table of the keys that aren't known, and else by their states.
pub fn homes_in(states: &States) -> u64 {
    let mut homes: u64 = 0;
    for (key, state) in states.iter().enumerate() {
        let live = match state {
            KeyState::Known(_) => is_live(*state),
            _ => in_table(key as u32).is_some_and(|home| home.count > 0),
        };
        if live {
            homes = homes.saturating_add(1);
        }
    }
    homes
}

/// Takes a step on both at these states, and sees that they agree. Gives the states after it.
fn step_both(
    rt: &impl Abort,
    bench: &mut Bench,
    slow: &mut Slow,
    before: &States,
    step: Step,
) -> Result<States, Fail> {
    let want = slow.take(before, homes_in(before), step)?;
    let given = bench.take(rt, step);
    assert!(rt; given == want, "{step:?} answers {given:?}, not {want:?}");
    let after = states_after(slow.events.as_slice());
    agree(rt, bench, &after, step);
    Ok(after)
}

/// The core has these states at the step's key, and the homes that they have.
fn agree(rt: &impl Abort, bench: &Bench, states: &States, step: Step) {
    let key = of_step(step).1;
    let left = bench.state(key);
    assert!(rt;
        states.get(key as usize) == Some(&left),
        "{step:?} leaves {left:?}"
    );
    assert!(rt;
        bench.homes() == homes_in(states),
        "{step:?} leaves other homes"
    );
}

/// Walks so many steps from a seed.
fn walk(rt: &impl Abort, alloc: Global, seed: u64, steps: u64) -> Result<(), Fail> {
    let mut numbers = Numbers { state: seed };
    let mut bench = Bench::open(rt, alloc, 4, QUOTA, 4_000)?;
    let mut slow = Slow {
        quota: QUOTA,
        events: Vec::new(alloc),
    };
    let mut states = states_after(&[]);
    for number in 0..steps {
        let step = choose(&mut numbers, &states, number.saturating_add(100));
        states = step_both(rt, &mut bench, &mut slow, &states, step)?;
    }
    assert!(rt;
        bench.history().len() == slow.events.len(),
        "as many steps are kept"
    );
    Ok(())
}

#[test]
fn a_walk_of_ten_thousand_steps_agrees_with_a_slow_machine(rt: HostRuntime) -> Result<(), Fail> {
    walk(&rt, rt.alloc(), 1, 10_000)
}

#[test]
fn forty_short_walks_agree_too(rt: HostRuntime) -> Result<(), Fail> {
    for seed in 2..42 {
        walk(&rt, rt.alloc(), seed, 120)?;
    }
    Ok(())
}
