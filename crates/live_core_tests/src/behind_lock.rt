//! A core behind the lock: two lanes want one key.
ghost use Rattle.std.specs.Prelude.{◌≡◌, ◌-◌, ◌<◌, ◌≤◌, [], length};
ghost use Rattle.lane_lock.specs.Seats.{IsSeatOf};
ghost use Rattle.live_core.specs.Moves.{lane_in};
ghost use Rattle.live_core_tests.specs.Groups.{IsAllowed, IsOfGroup};
ghost use Rattle.live_core_tests.specs.Seated.{IsReady};

use crate::group::{Group, core_of};
use lane_lock::{LaneLock, Seat};
use live_core::{Answer, Core, Step, Verdict};
use std::alloc::{AllocError, Global};
use std::process::Abort;
use std::sync::Wait;
use std::test::Fail;

/// Takes a step of the seat, which is this lane's and may keep so many events more.
fn act<R: Wait>(
    rt: &R,
    lock: &LaneLock<Core<Group>>,
    seat: &mut Seat<Core<Group>>,
    _lane: u32,
    step: Step,
    _left: u64,
) -> Answer
    requires ready { IsReady lock.now seat.old _lane _left }
    requires lane { lane_in step ≡ _lane }
    requires allowed { IsAllowed step }
    requires some { 0 < _left }
    ensures ready { IsReady lock.now seat.new _lane (_left - 1) }
{
    lock.act(rt, seat, step)
}

fn claim(lane: u32) -> Step
    ensures allowed { IsAllowed result }
    ensures lane { lane_in result ≡ lane }
{
    Step::Claim { lane, key: 3 }
}

fn load(lane: u32) -> Step
    ensures allowed { IsAllowed result }
    ensures lane { lane_in result ≡ lane }
{
    Step::Loaded {
        lane,
        key: 3,
        home: None,
    }
}

fn refer(lane: u32) -> Step
    requires { lane < 16 }
    ensures allowed { IsAllowed result }
    ensures lane { lane_in result ≡ lane }
{
    Step::Ref {
        lane,
        index: 3,
        key: 3,
        verdict: Verdict::Trust,
        place: 100,
    }
}

/// Two lanes claim key 3, one after the other; the first loads it, and both get a reference.
fn take_turns<R: Wait + Abort>(
    rt: &R,
    lock: &LaneLock<Core<Group>>,
    first: &mut Seat<Core<Group>>,
    second: &mut Seat<Core<Group>>,
)
    requires first { IsReady lock.now first.old 0 3 }
    requires second { IsReady lock.now second.old 1 3 }
    ensures first { IsReady lock.now first.new 0 0 }
    ensures second { IsReady lock.now second.new 1 0 }
{
    let leads = act(rt, lock, first, 0, claim(0), 3);
    assert!(rt; leads == Answer::Lead, "the first lane leads");
    let held = act(rt, lock, second, 1, claim(1), 3);
    assert!(rt; held == Answer::Held(0), "the second waits");
    let done = act(rt, lock, first, 0, load(0), 2);
    assert!(rt; done == Answer::Done, "the first has loaded the key");
    let known = act(rt, lock, second, 1, claim(1), 2);
    assert!(rt; known == Answer::Known(None), "the second knows it then");
    let new = act(rt, lock, second, 1, refer(1), 1);
    assert!(rt; matches!(new, Answer::New(_)), "and makes its home");
    let hit = act(rt, lock, first, 0, refer(0), 1);
    assert!(rt;
        matches!(hit, Answer::Hit(home) if home.count == 2),
        "which the first shares"
    );
}

/// The core, once both seats are back.
fn closed(
    alloc: Global,
    lock: LaneLock<Core<Group>>,
    first: Seat<Core<Group>>,
    second: Seat<Core<Group>>,
) -> Result<Core<Group>, AllocError>
    requires first { IsSeatOf lock first × (first.lane ≡ 0) }
    requires second { IsSeatOf lock second × (second.lane ≡ 1) }
    requires lanes { length lock.shares ≡ 2 }
{
    let mut seats = Vec::new(alloc);
    seats.push(first)?;
    seats.push(second)?;
    Ok(lock.close(seats))
}

/// Opens a lock round the core, takes the turns, and closes it.
fn share<R: Wait + Abort>(
    rt: &R,
    alloc: Global,
    core: Core<Group>,
) -> Result<Core<Group>, AllocError>
    requires of_group { IsOfGroup core.base }
    requires fresh { core.history ≡ [] }
    requires room { 6 ≤ core.spare }
{
    let opened = LaneLock::new(alloc, core, &[3, 3])?;
    let (lock, mut seats) = opened;
    let Some(second) = seats.pop() else {
        unreachable!()
    };
    let Some(first) = seats.pop() else {
        unreachable!()
    };
    let mut first = first;
    let mut second = second;
    take_turns(rt, &lock, &mut first, &mut second);
    closed(alloc, lock, first, second)
}

#[test]
fn two_lanes_share_a_core_behind_a_lock(rt: HostRuntime) -> Result<(), Fail> {
    let core = core_of(&rt, rt.alloc(), 0, None, 2)?;
    let core = share(&rt, rt.alloc(), core)?;
    assert!(&rt; core.homes() == 1, "there is one home");
    assert!(&rt; core.history().len() == 4, "four steps were kept");
    Ok(())
}
