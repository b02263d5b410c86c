//! Lanes that each take their steps in a thread, over one core behind the lock. All want the same keys.
ghost use Rattle.std.specs.Prelude.{◌≡◌, ℕ, ◌-◌, ◌<◌, ◌≤◌, [], length, sum, slice_index, slice_get, if◌then◌else◌, IfOk};
ghost use Rattle.lane_lock.specs.Seats.{SeatView, IsSeatOf};
ghost use Rattle.live_core.specs.Moves.{lane_in, is_kept};
ghost use Rattle.live_core.specs.Views.{CoreView};
ghost use Rattle.live_core_tests.specs.Groups.{IsAllowed, IsOfGroup};
ghost use Rattle.live_core_tests.specs.Seated.{IsReady};

use crate::group::{Group, KEYS, core_of, is_allowed};
use crate::slow::{Slow, is_event, of_step, states_after};
use crate::trace::{trace_in, with_event};
use crate::walk::{homes_in, in_table};
use ddt_entry::Home;
use lane_lock::{LaneLock, Seat, lane};
use live_core::{Answer, Core, Event, KeyState, Step, Verdict};
use std::alloc::{AllocError, Global};
use std::process::Abort;
use std::sync::Wait;
use std::sync::atomic::{AtomicU64, Ordering};
use std::test::Fail;
use std::thread;
use std::thread::{Promise, Scope, Threads};

/// After so many turns a lane that waits for another gives the key up, and the test fails.
const MOST_TURNS: u64 = 3_000_000;

/// How the lanes of a test go.
#[derive(Drop)]
struct Course {
    /// How many lanes there are.
    lanes: u32,
    /// How many lanes were told, key by key, that another lane leads it.
    held: Vec<AtomicU64>,
    /// A leader loads its key once so many were.
    waits: u64,
    /// Each lane begins so many keys behind the lane before it.
    apart: u32,
    /// How often a lane could not use a key.
    faults: AtomicU64,
    /// The trace of what each lane was told, once it has ended.
    told: Vec<AtomicU64>,
}

/// What a lane goes by, from step to step.
#[derive(Drop)]
struct Tally {
    /// How many more events it may keep.
    left: u64,
    /// The trace of the events that it was told.
    told: u64,
}

/// That a thread gives back the seat of this lane.
#[derive(Clone, Copy)]
struct SeatOf<'a> {
    lock: &'a LaneLock<Core<Group>>,
    lane: u32,
}

impl<'a> Promise<Seat<Core<Group>>> for SeatOf<'a> {
    ghost kept_by = { λ p r. IsSeatOf p.lock.now r × (r.lane ≡ p.lane) };
}

/// How many more events a lane may keep, after a step with this answer.
fn left_after(answer: Answer, left: u64) -> u64
    requires { 0 < left }
    ensures { result ≡ (if is_kept answer then left - 1 else left) }
{
    if is_event(answer) { left - 1 } else { left }
}

/// Takes a step of the seat, which is this lane's and may keep so many events more.
fn take_step<R: Wait>(
    rt: &R,
    lock: &LaneLock<Core<Group>>,
    seat: &mut Seat<Core<Group>>,
    _lane: u32,
    step: Step,
    tally: &mut Tally,
) -> Answer
    requires ready { IsReady lock.now seat.old _lane tally.old.left }
    requires lane { lane_in step ≡ _lane }
    requires allowed { IsAllowed step }
    requires some { 0 < tally.old.left }
    ensures ready { IsReady lock.now seat.new _lane tally.new.left }
{
    let answer = lock.act(rt, seat, step);
    tally.left = left_after(answer, tally.left);
    tally.told = with_event(tally.told, step, answer);
    answer
}

/// Takes a step of the seat, if it may be taken in the group and room is left, and answers `Stray` else.
fn act<R: Wait>(
    rt: &R,
    lock: &LaneLock<Core<Group>>,
    seat: &mut Seat<Core<Group>>,
    lane: u32,
    step: Step,
    tally: &mut Tally,
) -> Answer
    requires ready { IsReady lock.now seat.old lane tally.old.left }
    requires lane { lane_in step ≡ lane }
    ensures ready { IsReady lock.now seat.new lane tally.new.left }
{
    if !is_allowed(step) {
        return Answer::Stray;
    }
    if tally.left == 0 {
        return Answer::Stray;
    }
    take_step(rt, lock, seat, lane, step, tally)
}

/// Claims a key until no other lane leads it, and notes that one did. After too many turns it answers `Stray`, and where it is
/// told that it leads the key itself.
fn claim<R: Wait>(
    rt: &R,
    lock: &LaneLock<Core<Group>>,
    seat: &mut Seat<Core<Group>>,
    lane: u32,
    key: u32,
    tally: &mut Tally,
    held: &AtomicU64,
) -> Answer
    requires ready { IsReady lock.now seat.old lane tally.old.left }
    ensures ready { IsReady lock.now seat.new lane tally.new.left }
{
    'turns: for turn in 0..MOST_TURNS {
        let answer = act(rt, lock, seat, lane, Step::Claim { lane, key }, tally);
        if answer == Answer::Held(lane) {
            return Answer::Stray;
        }
        if !matches!(answer, Answer::Held(_)) {
            return answer;
        }
        if turn == 0 {
            held.fetch_add(1, Ordering::SeqCst);
        }
        thread::yield_now();
    }
    Answer::Stray
}

/// Waits until so many lanes were held at a key, but not for too many turns.
fn await_held(held: &AtomicU64, lanes: u64) {
    for _ in 0..MOST_TURNS {
        if held.load(Ordering::SeqCst) >= lanes {
            return;
        }
        thread::yield_now();
    }
}

/// The leader tells the home that the table has. Whether it was taken in.
fn load<R: Wait>(
    rt: &R,
    lock: &LaneLock<Core<Group>>,
    seat: &mut Seat<Core<Group>>,
    lane: u32,
    key: u32,
    tally: &mut Tally,
) -> bool
    requires ready { IsReady lock.now seat.old lane tally.old.left }
    ensures ready { IsReady lock.now seat.new lane tally.new.left }
{
    let step = Step::Loaded {
        lane,
        key,
        home: in_table(key),
    };
    act(rt, lock, seat, lane, step, tally) == Answer::Done
}

/// A write of the lane to the key, and its home then.
fn write<R: Wait>(
    rt: &R,
    lock: &LaneLock<Core<Group>>,
    seat: &mut Seat<Core<Group>>,
    lane: u32,
    key: u32,
    tally: &mut Tally,
) -> Option<Home>
    requires ready { IsReady lock.now seat.old lane tally.old.left }
    ensures ready { IsReady lock.now seat.new lane tally.new.left }
{
    let step = Step::Ref {
        lane,
        index: key,
        key,
        verdict: Verdict::Trust,
        place: place_of(lane, key),
    };
    match act(rt, lock, seat, lane, step, tally) {
        Answer::New(home) => Some(home),
        Answer::Hit(home) => Some(home),
        _ => None,
    }
}

/// A free of what the lane wrote. Whether the home counted it.
fn free<R: Wait>(
    rt: &R,
    lock: &LaneLock<Core<Group>>,
    seat: &mut Seat<Core<Group>>,
    lane: u32,
    key: u32,
    tally: &mut Tally,
    home: Home,
) -> bool
    requires ready { IsReady lock.now seat.old lane tally.old.left }
    ensures ready { IsReady lock.now seat.new lane tally.new.left }
{
    let step = Step::Unref {
        lane,
        index: key,
        key,
        place: home.place,
        birth: home.birth,
    };
    act(rt, lock, seat, lane, step, tally) == Answer::Counted
}

/// The place that the lane has for the key.
fn place_of(lane: u32, key: u32) -> u64 {
    100 + lane as u64 * KEYS as u64 + key as u64
}

/// Claims a key, and loads it where the lane leads it. Whether the key is known then.
fn look_up<R: Wait>(
    rt: &R,
    lock: &LaneLock<Core<Group>>,
    seat: &mut Seat<Core<Group>>,
    lane: u32,
    key: u32,
    tally: &mut Tally,
    course: &Course,
) -> bool
    requires ready { IsReady lock.now seat.old lane tally.old.left }
    ensures ready { IsReady lock.now seat.new lane tally.new.left }
{
    let Some(held) = course.held.get(key as usize) else {
        return false;
    };
    match claim(rt, lock, seat, lane, key, tally, held) {
        Answer::Lead => {
            await_held(held, course.waits);
            load(rt, lock, seat, lane, key, tally)
        }
        Answer::Known(_) => true,
        _ => false,
    }
}

/// Looks a key up and writes it. A lane with an odd number frees it again. Whether all went as it has to.
fn use_key<R: Wait>(
    rt: &R,
    lock: &LaneLock<Core<Group>>,
    seat: &mut Seat<Core<Group>>,
    lane: u32,
    key: u32,
    tally: &mut Tally,
    course: &Course,
) -> bool
    requires ready { IsReady lock.now seat.old lane tally.old.left }
    ensures ready { IsReady lock.now seat.new lane tally.new.left }
{
    if !look_up(rt, lock, seat, lane, key, tally, course) {
        return false;
    }
    let Some(home) = write(rt, lock, seat, lane, key, tally) else {
        return false;
    };
    if lane % 2 == 0 {
        return true;
    }
    free(rt, lock, seat, lane, key, tally, home)
}

/// Notes the trace of what a lane was told.
fn note_told(course: &Course, lane: u32, told: u64) {
    if let Some(word) = course.told.get(lane as usize) {
        word.store(told, Ordering::SeqCst);
    }
}

/// Uses all keys, one after the other, and notes each that could not be used, and at the end what the lane was told.
fn run_lane<R: Wait>(
    rt: &R,
    lock: &LaneLock<Core<Group>>,
    seat: Seat<Core<Group>>,
    room: u64,
    course: &Course,
) -> Seat<Core<Group>>
    requires ours { IsSeatOf lock.now seat }
    requires room { (seat.own ≡ []) × (room ≤ slice_index seat.shares seat.lane) }
    requires group { IsOfGroup lock.now.first.base }
    ensures ours { IsSeatOf lock.now result }
    ensures lane { result.lane ≡ seat.lane }
{
    let own = lane(&seat);
    let mut seat = seat;
    let mut tally = Tally {
        left: room,
        told: 0,
    };
    'keys: for count in 0..KEYS {
        let key = own.wrapping_mul(course.apart).wrapping_add(count) % KEYS;
        if !use_key(rt, lock, &mut seat, own, key, &mut tally, course) {
            course.faults.fetch_add(1, Ordering::SeqCst);
        }
    }
    note_told(course, own, tally.told);
    seat
}

/// How many events a lane may keep.
fn room_of(lane: u32, shares: &[u64]) -> u64
    ensures { result ≤ slice_index shares.now lane }
{
    let at = lane as usize;
    if at < shares.len() { shares[at] } else { 0 }
}

/// Runs all lanes, each in a thread of the scope. The last is started first, and joined last.
fn run_lanes<'a: 's, 's, E, R: Wait + Threads + Sync>(
    scope: &Scope<'s, E>,
    rt: &'a R,
    lock: &'a LaneLock<Core<Group>>,
    mut seats: Vec<Seat<Core<Group>>>,
    shares: &'a [u64],
    course: &'a Course,
) -> Result<Vec<Seat<Core<Group>>>, AllocError>
    requires ours { (k : ℕ) (s : SeatView CoreView Step Answer) → slice_get seats.items k ≡ Some s → IsSeatOf lock.now s × (s.lane ≡ k)
        × (s.own ≡ []) }
    requires shares { shares.now ≡ lock.now.shares }
    requires group { IsOfGroup lock.now.first.base }
    ensures ours { IfOk result (λ r. (k : ℕ) (s : SeatView CoreView Step Answer) → slice_get r.items k ≡ Some s → IsSeatOf lock.now s
        × (s.lane ≡ k)) }
    ensures all { IfOk result (λ r. length r.items ≡ length seats.items) }
{
    let Some(seat) = seats.pop() else {
        return Ok(seats);
    };
    let own = lane(&seat);
    let room = room_of(own, shares);
    let child = scope.spawn_with(
        SeatOf { lock, lane: own },
        move || -> Seat<Core<Group>>
            requires ours { IsSeatOf lock.now seat }
            requires room { (seat.own ≡ []) × (room ≤ slice_index seat.shares seat.lane) }
            requires group { IsOfGroup lock.now.first.base }
            ensures ours { IsSeatOf lock.entry.now result }
            ensures lane { result.lane ≡ seat.lane }
        { run_lane(rt, lock, seat, room, course) },
    )?;
    let mut back = run_lanes(scope, rt, lock, seats, shares, course)?;
    back.push(child.join(rt))?;
    Ok(back)
}

/// Runs all lanes in a scope of their own.
fn run_in_scope<R: Wait + Threads + Sync>(
    rt: &R,
    lock: &LaneLock<Core<Group>>,
    seats: Vec<Seat<Core<Group>>>,
    shares: &[u64],
    course: &Course,
) -> Result<Vec<Seat<Core<Group>>>, AllocError>
    requires ours { (k : ℕ) (s : SeatView CoreView Step Answer) → slice_get seats.items k ≡ Some s → IsSeatOf lock.now s × (s.lane ≡ k)
        × (s.own ≡ []) }
    requires shares { shares.now ≡ lock.now.shares }
    requires group { IsOfGroup lock.now.first.base }
    ensures ours { IfOk result (λ r. (k : ℕ) (s : SeatView CoreView Step Answer) → slice_get r.items k ≡ Some s → IsSeatOf lock.now s
        × (s.lane ≡ k)) }
    ensures all { IfOk result (λ r. length r.items ≡ length seats.items) }
{
    thread::scope(
        thread::scope_env(),
        rt,
        |scope| -> Result<Vec<Seat<Core<Group>>>, AllocError>
            requires ours { (k : ℕ) (s : SeatView CoreView Step Answer) → slice_get seats.items k ≡ Some s → IsSeatOf lock.now s
                × (s.lane ≡ k) × (s.own ≡ []) }
            requires shares { shares.now ≡ lock.now.shares }
            requires group { IsOfGroup lock.now.first.base }
            ensures ours { IfOk result (λ r. (k : ℕ) (s : SeatView CoreView Step Answer) → slice_get r.items k ≡ Some s
                → IsSeatOf lock.entry.now s × (s.lane ≡ k)) }
            ensures all { IfOk result (λ r. length r.items ≡ length seats.items) }
        { run_lanes(scope, rt, lock, seats, shares, course) },
    )
}

/// Opens a lock round the core, runs all lanes, and closes it.
fn run_core<R: Wait + Threads + Sync>(
    rt: &R,
    alloc: Global,
    core: Core<Group>,
    shares: &[u64],
    course: &Course,
) -> Result<Core<Group>, AllocError>
    requires group { IsOfGroup core.base }
    requires fresh { (core.history ≡ []) × (sum shares.now ≤ core.spare) }
    requires few { (0 < length shares.now) × (length shares.now ≤ 16) }
{
    let opened = LaneLock::new(alloc, core, shares)?;
    let (lock, seats) = opened;
    let back = run_in_scope(rt, &lock, seats, shares, course)?;
    Ok(lock.close(back))
}

/// What a history says of a key.
#[derive(Clone, Copy)]
struct Story {
    leads: u64,
    loads: u64,
    gains: u64,
    losses: u64,
}

/// The events of a key, by their answers.
fn story_of(events: &[Event], key: u32) -> Story {
    let mut story = Story {
        leads: 0,
        loads: 0,
        gains: 0,
        losses: 0,
    };
    for event in events {
        if of_step(event.step).1 != key {
            continue;
        }
        match event.answer {
            Answer::Lead => story.leads = story.leads.saturating_add(1),
            Answer::Done => story.loads = story.loads.saturating_add(1),
            Answer::New(_) => story.gains = story.gains.saturating_add(1),
            Answer::Hit(_) => story.gains = story.gains.saturating_add(1),
            Answer::Counted => story.losses = story.losses.saturating_add(1),
            _ => {}
        }
    }
    story
}

/// How many references the table has of a key's home.
fn count_in_table(key: u32) -> u64 {
    match in_table(key) {
        Some(home) => home.count,
        None => 0,
    }
}

/// How many references the core has of a key's home.
fn count_in_core(core: &Core<Group>, key: u32) -> u64 {
    match core.state(key) {
        KeyState::Known(Some(live)) => live.home.count,
        _ => 0,
    }
}

/// Sees that the key was led and loaded once, that each lane got its reference and the odd ones gave it back, and that
/// its count is what was loaded with those that are left.
fn assert_key(rt: &impl Abort, core: &Core<Group>, key: u32, lanes: u64) {
    let story = story_of(core.history(), key);
    assert!(rt; story.leads == 1, "key {key} has one leader");
    assert!(rt; story.loads == 1, "key {key} is loaded once");
    assert!(rt; story.gains == lanes, "each lane refers to key {key}");
    assert!(rt; story.losses == lanes / 2, "the odd lanes free key {key}");
    let count = count_in_table(key).saturating_add(lanes - lanes / 2);
    assert!(rt;
        count_in_core(core, key) == count,
        "key {key} has the count of its events"
    );
}

/// Sees that the history is legal: a slow machine that goes by the history alone gives each event its answer, and none is
/// answered `Stray`.
fn assert_legal(rt: &impl Abort, alloc: Global, events: &[Event]) -> Result<(), Fail> {
    let mut slow = Slow {
        quota: None,
        events: Vec::new(alloc),
    };
    for event in events {
        let before = states_after(slow.events.as_slice());
        let want = slow.take(&before, homes_in(&before), event.step)?;
        assert!(rt;
            want == event.answer && want != Answer::Stray,
            "a step has a wrong answer"
        );
    }
    assert!(rt;
        slow.events.len() == events.len(),
        "each event is a step that is kept"
    );
    Ok(())
}

/// Sees that each key is in the state that its events leave.
fn assert_states(rt: &impl Abort, core: &Core<Group>) {
    let states = states_after(core.history());
    for key in 0..KEYS {
        let left = core.state(key);
        assert!(rt;
            states.get(key as usize) == Some(&left),
            "the events of key {key} leave another state"
        );
    }
}

/// Sees that each home that was loaded is the one in the table.
fn assert_loaded(rt: &impl Abort, events: &[Event]) {
    for event in events {
        if let Step::Loaded { key, home, .. } = event.step {
            assert!(rt; home == in_table(key), "the table has another home");
        }
    }
}

/// Sees that each lane was told what the history says of its steps, in their order.
fn assert_told(rt: &impl Abort, course: &Course, events: &[Event]) {
    for lane in 0..course.lanes {
        assert!(rt;
            told_to(course, lane) == Some(trace_in(events, lane)),
            "lane {lane} was told something else"
        );
    }
}

/// Sees what the lanes have left.
fn assert_core(
    rt: &impl Abort,
    alloc: Global,
    core: &Core<Group>,
    course: &Course,
) -> Result<(), Fail> {
    for key in 0..KEYS {
        assert_key(rt, core, key, course.lanes as u64);
    }
    assert!(rt; core.homes() == KEYS as u64, "each key has a home");
    assert_states(rt, core);
    assert_loaded(rt, core.history());
    assert_told(rt, course, core.history());
    assert_legal(rt, alloc, core.history())
}

/// Words that are all 0.
fn zeros(alloc: Global, count: u32) -> Result<Vec<AtomicU64>, AllocError> {
    let mut words = Vec::new(alloc);
    for _ in 0..count {
        words.push(AtomicU64::new(0))?;
    }
    Ok(words)
}

/// A course on which nothing was noted yet.
fn course_of(alloc: Global, lanes: u32, waits: u64, apart: u32) -> Result<Course, AllocError> {
    let held = zeros(alloc, KEYS)?;
    let told = zeros(alloc, lanes)?;
    Ok(Course {
        lanes,
        held,
        waits,
        apart,
        faults: AtomicU64::new(0),
        told,
    })
}

/// How often a lane could not use a key.
fn faults_of(course: &Course) -> u64 {
    course.faults.load(Ordering::SeqCst)
}

/// The trace of what a lane was told.
fn told_to(course: &Course, lane: u32) -> Option<u64> {
    match course.told.get(lane as usize) {
        Some(word) => Some(word.load(Ordering::SeqCst)),
        None => None,
    }
}

/// Whether so many lanes were held at each key.
fn were_held(course: &Course, lanes: u64) -> bool {
    for times in course.held.iter() {
        if times.load(Ordering::SeqCst) != lanes {
            return false;
        }
    }
    true
}

#[test]
fn four_lanes_wait_for_the_one_that_leads(rt: HostRuntime) -> Result<(), Fail> {
    let course = course_of(rt.alloc(), 4, 3, 0)?;
    let core = core_of(&rt, rt.alloc(), 4, None, 64)?;
    let core = run_core(&rt, rt.alloc(), core, &[32; 4], &course)?;
    assert!(&rt; faults_of(&course) == 0, "each lane used each key");
    assert!(&rt; were_held(&course, 3), "three lanes waited at each key");
    assert_core(&rt, rt.alloc(), &core, &course)
}

#[test]
fn sixteen_lanes_share_eight_keys(rt: HostRuntime) -> Result<(), Fail> {
    let course = course_of(rt.alloc(), 16, 0, 3)?;
    let core = core_of(&rt, rt.alloc(), 4, None, 256)?;
    let core = run_core(&rt, rt.alloc(), core, &[32; 16], &course)?;
    assert!(&rt; faults_of(&course) == 0, "each lane used each key");
    assert_core(&rt, rt.alloc(), &core, &course)
}
