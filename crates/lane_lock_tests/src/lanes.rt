//! Lanes that each take their steps in a thread, and the tests of what they leave.
ghost use Rattle.std.specs.Prelude.{◌≡◌, ℕ, ◌<◌, ◌≤◌, [], length, sum, slice_index, slice_get, vec_len, vec_capacity, ◌-◌, IfOk, IfSome, Some};
ghost use Rattle.lane_lock.specs.Seats.{SeatView, IsSeatOf};

use crate::tally::Tally;
use lane_lock::{LaneLock, Seat, lane};
use std::alloc::{AllocError, Global};
use std::process::Abort;
use std::sync::Wait;
use std::sync::atomic::{AtomicU64, Ordering};
use std::thread;
use std::thread::{Promise, Scope, Threads};

/// That a thread gives back the seat of this lane.
#[derive(Clone, Copy)]
struct SeatOf<'a> {
    lock: &'a LaneLock<Tally>,
    lane: u32,
}

impl<'a> Promise<Seat<Tally>> for SeatOf<'a> {
    ghost kept_by = { λ p r. IsSeatOf p.lock.now r × (r.lane ≡ p.lane) };
}

/// How many steps a lane takes: so many as it is told, and no more than its share.
fn steps_of(lane: u32, shares: &[u64], steps: &[u64]) -> u64
    ensures { result ≤ slice_index shares.now lane }
{
    let at = lane as usize;
    if at < shares.len() && at < steps.len() {
        shares[at].min(steps[at])
    } else {
        0
    }
}

/// Takes so many steps, and notes how often each answer came.
fn run_lane<R: Wait>(
    rt: &R,
    lock: &LaneLock<Tally>,
    seat: Seat<Tally>,
    count: u64,
    seen: &[AtomicU64],
) -> Seat<Tally>
    requires ours { IsSeatOf lock.now seat }
    requires room { (seat.own ≡ []) × (count ≤ slice_index seat.shares seat.lane) }
    ensures ours { IsSeatOf lock.now result }
    ensures lane { result.lane ≡ seat.lane }
{
    let own = lane(&seat);
    let mut seat = seat;
    let mut taken = 0;
    'steps: while taken < count {
        let answer = lock.act(rt, &mut seat, own);
        if let Some(times) = seen.get(answer as usize) {
            times.fetch_add(1, Ordering::SeqCst);
        }
        taken += 1;
    }
    seat
}

/// Runs all lanes, each in a thread of the scope. The last is started first, and joined last.
fn run_lanes<'a: 's, 's, E, R: Wait + Threads + Sync>(
    scope: &Scope<'s, E>,
    rt: &'a R,
    lock: &'a LaneLock<Tally>,
    mut seats: Vec<Seat<Tally>>,
    shares: &'a [u64],
    steps: &'a [u64],
    seen: &'a [AtomicU64],
) -> Result<Vec<Seat<Tally>>, AllocError>
    requires ours { (k : ℕ) (s : SeatView Tally ℕ ℕ) → slice_get seats.items k ≡ Some s → IsSeatOf lock.now s × (s.lane ≡ k)
        × (s.own ≡ []) }
    requires shares { shares.now ≡ lock.now.shares }
    ensures ours { IfOk result (λ r. (k : ℕ) (s : SeatView Tally ℕ ℕ) → slice_get r.items k ≡ Some s → IsSeatOf lock.now s × (s.lane ≡ k)) }
    ensures all { IfOk result (λ r. length r.items ≡ length seats.items) }
{
    let Some(seat) = seats.pop() else {
        return Ok(seats);
    };
    let own = lane(&seat);
    let count = steps_of(own, shares, steps);
    let child = scope.spawn_with(
        SeatOf { lock, lane: own },
        move || -> Seat<Tally>
            requires ours { IsSeatOf lock.now seat }
            requires room { (seat.own ≡ []) × (count ≤ slice_index seat.shares seat.lane) }
            ensures ours { IsSeatOf lock.entry.now result }
            ensures lane { result.lane ≡ seat.lane }
        { run_lane(rt, lock, seat, count, seen) },
    )?;
    let mut back = run_lanes(scope, rt, lock, seats, shares, steps, seen)?;
    back.push(child.join(rt))?;
    Ok(back)
}

/// Opens a lock round the machine, runs all lanes, and closes it.
fn run_tally<R: Wait + Threads + Sync>(
    rt: &R,
    alloc: Global,
    machine: Tally,
    shares: &[u64],
    steps: &[u64],
    seen: &[AtomicU64],
) -> Result<Tally, AllocError>
    requires fresh { (machine.events.items ≡ []) × (sum shares.now ≤ vec_capacity machine.events - vec_len machine.events) }
    requires few { (0 < length shares.now) × (length shares.now ≤ 16) }
{
    let opened = LaneLock::new(alloc, machine, shares)?;
    let (lock, seats) = opened;
    let back = run_in_scope(rt, &lock, seats, shares, steps, seen)?;
    Ok(lock.close(back))
}

/// Runs all lanes in a scope of their own.
fn run_in_scope<R: Wait + Threads + Sync>(
    rt: &R,
    lock: &LaneLock<Tally>,
    seats: Vec<Seat<Tally>>,
    shares: &[u64],
    steps: &[u64],
    seen: &[AtomicU64],
) -> Result<Vec<Seat<Tally>>, AllocError>
    requires ours { (k : ℕ) (s : SeatView Tally ℕ ℕ) → slice_get seats.items k ≡ Some s → IsSeatOf lock.now s × (s.lane ≡ k)
        × (s.own ≡ []) }
    requires shares { shares.now ≡ lock.now.shares }
    ensures ours { IfOk result (λ r. (k : ℕ) (s : SeatView Tally ℕ ℕ) → slice_get r.items k ≡ Some s → IsSeatOf lock.now s × (s.lane ≡ k)) }
    ensures all { IfOk result (λ r. length r.items ≡ length seats.items) }
{
    thread::scope(
        thread::scope_env(),
        rt,
        |scope| -> Result<Vec<Seat<Tally>>, AllocError>
            requires ours { (k : ℕ) (s : SeatView Tally ℕ ℕ) → slice_get seats.items k ≡ Some s → IsSeatOf lock.now s × (s.lane ≡ k)
                × (s.own ≡ []) }
            requires shares { shares.now ≡ lock.now.shares }
            ensures ours { IfOk result (λ r. (k : ℕ) (s : SeatView Tally ℕ ℕ) → slice_get r.items k ≡ Some s → IsSeatOf lock.entry.now s
                × (s.lane ≡ k)) }
            ensures all { IfOk result (λ r. length r.items ≡ length seats.items) }
        { run_lanes(scope, rt, lock, seats, shares, steps, seen) },
    )
}

/// The shares added up, where they are a number.
fn total(shares: &[u64]) -> Option<u64>
    ensures { IfSome result (λ n. sum shares.now ≡ n) }
{
    let mut sum: u64 = 0;
    let mut at = 0;
    'add: while at < shares.len() {
        let Some(more) = sum.checked_add(shares[at]) else {
            return None;
        };
        sum = more;
        at += 1;
    }
    Some(sum)
}

/// How often each answer from 0 to this one came.
fn counters(alloc: Global, last: u64) -> Result<Vec<AtomicU64>, AllocError> {
    let mut seen = Vec::new(alloc);
    for _ in 0..last {
        seen.push(AtomicU64::new(0))?;
    }
    seen.push(AtomicU64::new(0))?;
    Ok(seen)
}

/// Runs a machine with these shares, if there are 1 to 16. Answers how many steps it took, and how many events it has.
fn outcome<R: Wait + Threads + Sync>(
    rt: &R,
    alloc: Global,
    keeps: bool,
    shares: &[u64],
    steps: &[u64],
    seen: &[AtomicU64],
) -> Result<(u64, u64), AllocError> {
    let Some(room) = total(shares) else {
        return Err(AllocError);
    };
    if shares.is_empty() || shares.len() > 16 {
        return Err(AllocError);
    }
    let machine = Tally::new(alloc, keeps, room)?;
    let end = run_tally(rt, alloc, machine, shares, steps, seen)?;
    Ok((end.taken(), end.events()))
}

/// How often an answer came.
fn times_of(seen: &[AtomicU64], answer: usize) -> u64 {
    match seen.get(answer) {
        Some(times) => times.load(Ordering::SeqCst),
        None => 0,
    }
}

/// Sees that each answer from 1 to the last came once, and no other.
fn each_once(rt: &impl Abort, seen: &[AtomicU64]) {
    for (answer, times) in seen.iter().enumerate() {
        let times = times.load(Ordering::SeqCst);
        let want = if answer == 0 { 0 } else { 1 };
        assert!(rt; times == want, "answer {answer} came {times} times");
    }
}

#[test]
fn four_lanes_take_a_thousand_numbers(rt: HostRuntime) {
    let alloc = rt.alloc();
    let seen = counters(alloc, 1000).expect(&rt, "memory");
    let end = outcome(&rt, alloc, true, &[250; 4], &[250; 4], seen.as_slice());
    assert!(&rt; matches!(end, Ok((1000, 1000))), "the machine is at 1000");
    each_once(&rt, seen.as_slice());
}

#[test]
fn sixteen_lanes_take_a_thousand_numbers(rt: HostRuntime) {
    let alloc = rt.alloc();
    let seen = counters(alloc, 1008).expect(&rt, "memory");
    let end = outcome(&rt, alloc, true, &[63; 16], &[63; 16], seen.as_slice());
    assert!(&rt; matches!(end, Ok((1008, 1008))), "the machine is at 1008");
    each_once(&rt, seen.as_slice());
}

#[test]
fn a_lane_that_never_steps_holds_no_other_up(rt: HostRuntime) {
    let alloc = rt.alloc();
    let seen = counters(alloc, 600).expect(&rt, "memory");
    let end = outcome(
        &rt,
        alloc,
        true,
        &[300, 300, 300],
        &[300, 0, 300],
        seen.as_slice(),
    );
    assert!(&rt; matches!(end, Ok((600, 600))), "two lanes have stepped");
    each_once(&rt, seen.as_slice());
}

#[test]
fn shares_of_nothing_leave_the_machine_as_it_was(rt: HostRuntime) {
    let alloc = rt.alloc();
    let seen = counters(alloc, 0).expect(&rt, "memory");
    let end = outcome(&rt, alloc, true, &[0; 4], &[250; 4], seen.as_slice());
    assert!(&rt; matches!(end, Ok((0, 0))), "nobody has stepped");
    each_once(&rt, seen.as_slice());
}

#[test]
fn a_machine_that_keeps_nothing_counts_all_the_same(rt: HostRuntime) {
    let alloc = rt.alloc();
    let seen = counters(alloc, 0).expect(&rt, "memory");
    let end = outcome(&rt, alloc, false, &[250; 4], &[250; 4], seen.as_slice());
    assert!(&rt;
        matches!(end, Ok((1000, 0))),
        "it took 1000 steps and kept none"
    );
    assert!(&rt; times_of(seen.as_slice(), 0) == 1000, "each answer is 0");
}
