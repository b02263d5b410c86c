//! Every row of the table of steps, at a core that a few steps have brought to the state of the row.
use crate::group::Bench;
use ddt_entry::Home;
use live_core::{Answer, Body, KeyState, LiveHome, Step, Verdict};
use std::alloc::Global;
use std::process::Abort;
use std::test::Fail;

/// The state of key 1 before the step.
#[derive(Clone, Copy, Debug)]
enum Start {
    Idle,
    /// Lane 5 leads it.
    Led,
    NoHome,
    /// The table has its home, with so many references.
    Stored(u64),
    /// Lane 5 has made its home.
    Made,
}

/// The state before, the quota, the step, its answer, the state after, and the number of homes then.
type Row = (Start, Option<u64>, Step, Answer, KeyState, u64);

/// The home of key 1 in the table, which no pointer counts.
const STORED_0: LiveHome = LiveHome {
    home: Home {
        place: 40,
        birth: 3,
        since: 500,
        count: 0,
    },
    body: Body::Disk,
};

/// The same with one reference.
const STORED_1: LiveHome = LiveHome {
    home: Home {
        place: 40,
        birth: 3,
        since: 500,
        count: 1,
    },
    body: Body::Disk,
};

/// The same with two.
const STORED_2: LiveHome = LiveHome {
    home: Home {
        place: 40,
        birth: 3,
        since: 500,
        count: 2,
    },
    body: Body::Disk,
};

/// The same with three.
const STORED_3: LiveHome = LiveHome {
    home: Home {
        place: 40,
        birth: 3,
        since: 500,
        count: 3,
    },
    body: Body::Disk,
};

/// The stored home, taken up in the group.
const TAKEN: LiveHome = LiveHome {
    home: Home {
        place: 40,
        birth: 3,
        since: 1000,
        count: 1,
    },
    body: Body::Disk,
};

/// The home that command 1 of lane 5 makes.
const MADE_1: LiveHome = LiveHome {
    home: Home {
        place: 50,
        birth: 7,
        since: 1000,
        count: 1,
    },
    body: Body::Command { lane: 5, index: 1 },
};

/// The same with two references.
const MADE_2: LiveHome = LiveHome {
    home: Home {
        place: 50,
        birth: 7,
        since: 1000,
        count: 2,
    },
    body: Body::Command { lane: 5, index: 1 },
};

/// Lane 5 claims the key.
const CLAIM: Step = Step::Claim { lane: 5, key: 1 };

/// It couldn't read the table.
const FAILED: Step = Step::Failed { lane: 5, key: 1 };

/// It has found no home.
const LOADED_NONE: Step = Step::Loaded {
    lane: 5,
    key: 1,
    home: None,
};

/// It has found one.
const LOADED_2: Step = Step::Loaded {
    lane: 5,
    key: 1,
    home: Some(Home {
        place: 40,
        birth: 3,
        since: 500,
        count: 2,
    }),
};

/// A lane that doesn't lead says that it couldn't read.
const OTHERS_FAILED: Step = Step::Failed { lane: 3, key: 1 };

/// It says that there is no home.
const OTHERS_LOADED: Step = Step::Loaded {
    lane: 3,
    key: 1,
    home: None,
};

/// It claims the key.
const OTHERS_CLAIM: Step = Step::Claim { lane: 3, key: 1 };

/// The group has no such key.
const PAST: Step = Step::Claim { lane: 5, key: 8 };

/// Command 1 of lane 5 wants a reference, whatever home there is.
const TRUST: Step = Step::Ref {
    lane: 5,
    index: 1,
    key: 1,
    verdict: Verdict::Trust,
    place: 50,
};

/// It has found no home.
const ABSENT: Step = Step::Ref {
    lane: 5,
    index: 1,
    key: 1,
    verdict: Verdict::Absent,
    place: 50,
};

/// The stored block has its bytes.
const SAME: Step = Step::Ref {
    lane: 5,
    index: 1,
    key: 1,
    verdict: Verdict::Same {
        place: 40,
        body: Body::Disk,
    },
    place: 50,
};

/// The stored block has other bytes.
const DIFFERS: Step = Step::Ref {
    lane: 5,
    index: 1,
    key: 1,
    verdict: Verdict::Differs {
        place: 40,
        body: Body::Disk,
    },
    place: 50,
};

/// A block at another place has its bytes.
const SAME_ELSEWHERE: Step = Step::Ref {
    lane: 5,
    index: 1,
    key: 1,
    verdict: Verdict::Same {
        place: 41,
        body: Body::Disk,
    },
    place: 50,
};

/// A block at another place has other bytes.
const DIFFERS_ELSEWHERE: Step = Step::Ref {
    lane: 5,
    index: 1,
    key: 1,
    verdict: Verdict::Differs {
        place: 41,
        body: Body::Disk,
    },
    place: 50,
};

/// Command 1 of lane 5 itself has its bytes.
const SAME_AS_COMMAND: Step = Step::Ref {
    lane: 5,
    index: 1,
    key: 1,
    verdict: Verdict::Same {
        place: 50,
        body: Body::Command { lane: 5, index: 1 },
    },
    place: 50,
};

/// Another command has its bytes.
const SAME_AS_OTHER: Step = Step::Ref {
    lane: 5,
    index: 1,
    key: 1,
    verdict: Verdict::Same {
        place: 50,
        body: Body::Command { lane: 5, index: 2 },
    },
    place: 50,
};

/// A command has its bytes, at the stored home's place.
const COMMAND_AT_40: Step = Step::Ref {
    lane: 5,
    index: 1,
    key: 1,
    verdict: Verdict::Same {
        place: 40,
        body: Body::Command { lane: 5, index: 1 },
    },
    place: 50,
};

/// Lane 5 frees a pointer to the stored home.
const FREE: Step = Step::Unref {
    lane: 5,
    index: 1,
    key: 1,
    place: 40,
    birth: 3,
};

/// It frees one at another place.
const FREE_ELSEWHERE: Step = Step::Unref {
    lane: 5,
    index: 1,
    key: 1,
    place: 41,
    birth: 3,
};

/// It frees one that a later group wrote at that place.
const FREE_YOUNGER: Step = Step::Unref {
    lane: 5,
    index: 1,
    key: 1,
    place: 40,
    birth: 4,
};

/// The key has no home.
const NONE: KeyState = KeyState::Known(None);

/// Lane 5 leads the key.
const LED: KeyState = KeyState::Led(5);

/// A quota of two keys, which the group's two homes use up.
const TIGHT: Option<u64> = Some(512);

/// Lane 5 claims the key and tells of its home.
fn load(rt: &impl Abort, bench: &mut Bench, home: Option<Home>) {
    bench.take(rt, CLAIM);
    bench.take(
        rt,
        Step::Loaded {
            lane: 5,
            key: 1,
            home,
        },
    );
}

/// Brings key 1 to a state.
fn bring(rt: &impl Abort, bench: &mut Bench, start: Start) {
    match start {
        Start::Idle => {}
        Start::Led => {
            bench.take(rt, CLAIM);
        }
        Start::NoHome => load(rt, bench, None),
        Start::Stored(count) => load(
            rt,
            bench,
            Some(Home {
                count,
                ..STORED_0.home
            }),
        ),
        Start::Made => {
            load(rt, bench, None);
            bench.take(rt, TRUST);
        }
    }
}

/// Takes the step of each row, each on a core of its own with two homes.
fn check(rt: &impl Abort, alloc: Global, rows: &[Row]) -> Result<(), Fail> {
    for (start, quota, step, answer, state, homes) in rows {
        let mut bench = Bench::open(rt, alloc, 2, *quota, 2)?;
        bring(rt, &mut bench, *start);
        let given = bench.take(rt, *step);
        assert!(rt; given == *answer, "{step:?} at {start:?} answers {given:?}");
        let left = bench.state(1);
        assert!(rt; left == *state, "{step:?} at {start:?} leaves {left:?}");
        assert!(rt;
            bench.homes() == *homes,
            "{step:?} at {start:?} leaves other homes"
        );
    }
    Ok(())
}

#[test]
fn the_first_lane_leads_and_loads(rt: HostRuntime) -> Result<(), Fail> {
    let rows: [Row; 15] = [
        (Start::Idle, None, CLAIM, Answer::Lead, LED, 2),
        (Start::Led, None, CLAIM, Answer::Held(5), LED, 2),
        (Start::Led, None, OTHERS_CLAIM, Answer::Held(5), LED, 2),
        (Start::NoHome, None, CLAIM, Answer::Known(None), NONE, 2),
        (
            Start::Stored(2),
            None,
            CLAIM,
            Answer::Known(Some(STORED_2)),
            KeyState::Known(Some(STORED_2)),
            2,
        ),
        (
            Start::Led,
            None,
            LOADED_2,
            Answer::Done,
            KeyState::Known(Some(STORED_2)),
            2,
        ),
        (Start::Led, None, LOADED_NONE, Answer::Done, NONE, 2),
        (Start::Led, None, OTHERS_LOADED, Answer::Stray, LED, 2),
        (
            Start::Idle,
            None,
            LOADED_NONE,
            Answer::Stray,
            KeyState::Idle,
            2,
        ),
        (
            Start::Stored(2),
            None,
            LOADED_NONE,
            Answer::Stray,
            KeyState::Known(Some(STORED_2)),
            2,
        ),
        (Start::Led, None, FAILED, Answer::Done, KeyState::Idle, 2),
        (Start::Led, None, OTHERS_FAILED, Answer::Stray, LED, 2),
        (Start::Idle, None, FAILED, Answer::Stray, KeyState::Idle, 2),
        (Start::NoHome, None, FAILED, Answer::Stray, NONE, 2),
        (Start::Idle, None, PAST, Answer::Stray, KeyState::Idle, 2),
    ];
    check(&rt, rt.alloc(), &rows)
}

#[test]
fn a_write_that_trusts_shares_any_home(rt: HostRuntime) -> Result<(), Fail> {
    let rows: [Row; 9] = [
        (
            Start::NoHome,
            None,
            TRUST,
            Answer::New(MADE_1.home),
            KeyState::Known(Some(MADE_1)),
            3,
        ),
        (Start::NoHome, TIGHT, TRUST, Answer::Quota, NONE, 2),
        (
            Start::Stored(2),
            None,
            TRUST,
            Answer::Hit(STORED_3.home),
            KeyState::Known(Some(STORED_3)),
            2,
        ),
        (
            Start::Stored(2),
            TIGHT,
            TRUST,
            Answer::Hit(STORED_3.home),
            KeyState::Known(Some(STORED_3)),
            2,
        ),
        (
            Start::Stored(0),
            None,
            TRUST,
            Answer::New(TAKEN.home),
            KeyState::Known(Some(TAKEN)),
            3,
        ),
        (
            Start::Stored(0),
            TIGHT,
            TRUST,
            Answer::Quota,
            KeyState::Known(Some(STORED_0)),
            2,
        ),
        (
            Start::Made,
            None,
            TRUST,
            Answer::Hit(MADE_2.home),
            KeyState::Known(Some(MADE_2)),
            3,
        ),
        (Start::Idle, None, TRUST, Answer::Stray, KeyState::Idle, 2),
        (Start::Led, None, TRUST, Answer::Stray, LED, 2),
    ];
    check(&rt, rt.alloc(), &rows)
}

#[test]
fn a_write_that_compares_shares_its_own_bytes(rt: HostRuntime) -> Result<(), Fail> {
    let rows: [Row; 14] = [
        (
            Start::NoHome,
            None,
            ABSENT,
            Answer::New(MADE_1.home),
            KeyState::Known(Some(MADE_1)),
            3,
        ),
        (
            Start::Stored(2),
            None,
            ABSENT,
            Answer::Again(Some(STORED_2)),
            KeyState::Known(Some(STORED_2)),
            2,
        ),
        (
            Start::Stored(2),
            None,
            SAME,
            Answer::Hit(STORED_3.home),
            KeyState::Known(Some(STORED_3)),
            2,
        ),
        (
            Start::Stored(0),
            None,
            SAME,
            Answer::New(TAKEN.home),
            KeyState::Known(Some(TAKEN)),
            3,
        ),
        (
            Start::Stored(2),
            None,
            DIFFERS,
            Answer::Clash,
            KeyState::Known(Some(STORED_2)),
            2,
        ),
        (
            Start::Stored(0),
            None,
            DIFFERS,
            Answer::New(MADE_1.home),
            KeyState::Known(Some(MADE_1)),
            3,
        ),
        (
            Start::Stored(0),
            TIGHT,
            DIFFERS,
            Answer::Quota,
            KeyState::Known(Some(STORED_0)),
            2,
        ),
        (Start::NoHome, None, SAME, Answer::Again(None), NONE, 2),
        (Start::NoHome, None, DIFFERS, Answer::Again(None), NONE, 2),
        (
            Start::Stored(2),
            None,
            SAME_ELSEWHERE,
            Answer::Again(Some(STORED_2)),
            KeyState::Known(Some(STORED_2)),
            2,
        ),
        (
            Start::Stored(0),
            None,
            DIFFERS_ELSEWHERE,
            Answer::Again(Some(STORED_0)),
            KeyState::Known(Some(STORED_0)),
            2,
        ),
        (
            Start::Stored(2),
            None,
            COMMAND_AT_40,
            Answer::Again(Some(STORED_2)),
            KeyState::Known(Some(STORED_2)),
            2,
        ),
        (
            Start::Made,
            None,
            SAME_AS_COMMAND,
            Answer::Hit(MADE_2.home),
            KeyState::Known(Some(MADE_2)),
            3,
        ),
        (
            Start::Made,
            None,
            SAME_AS_OTHER,
            Answer::Again(Some(MADE_1)),
            KeyState::Known(Some(MADE_1)),
            3,
        ),
    ];
    check(&rt, rt.alloc(), &rows)
}

#[test]
fn a_free_gives_up_its_own_home_alone(rt: HostRuntime) -> Result<(), Fail> {
    let rows: [Row; 8] = [
        (
            Start::Stored(2),
            None,
            FREE,
            Answer::Counted,
            KeyState::Known(Some(STORED_1)),
            2,
        ),
        (
            Start::Stored(1),
            None,
            FREE,
            Answer::Counted,
            KeyState::Known(Some(STORED_0)),
            1,
        ),
        (
            Start::Stored(0),
            None,
            FREE,
            Answer::Loose,
            KeyState::Known(Some(STORED_0)),
            2,
        ),
        (
            Start::Stored(2),
            None,
            FREE_ELSEWHERE,
            Answer::Loose,
            KeyState::Known(Some(STORED_2)),
            2,
        ),
        (
            Start::Stored(2),
            None,
            FREE_YOUNGER,
            Answer::Loose,
            KeyState::Known(Some(STORED_2)),
            2,
        ),
        (Start::NoHome, None, FREE, Answer::Loose, NONE, 2),
        (Start::Idle, None, FREE, Answer::Stray, KeyState::Idle, 2),
        (Start::Led, None, FREE, Answer::Stray, LED, 2),
    ];
    check(&rt, rt.alloc(), &rows)
}

#[test]
fn of_two_lanes_that_claim_a_key_one_leads_and_one_is_held(rt: HostRuntime) -> Result<(), Fail> {
    let mut bench = Bench::open(&rt, rt.alloc(), 0, None, 2)?;
    let first = bench.take(&rt, Step::Claim { lane: 4, key: 2 });
    let second = bench.take(&rt, Step::Claim { lane: 9, key: 2 });
    assert!(&rt; first == Answer::Lead, "the first leads");
    assert!(&rt; second == Answer::Held(4), "the second waits for it");
    assert!(&rt;
        bench.history().len() == 1,
        "only what the first was told is kept"
    );
    Ok(())
}
