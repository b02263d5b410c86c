//! The events of a lane as one number, by their order: what the lane was told is compared with what the history says.
use crate::slow::{is_event, of_step};
use ddt_entry::Home;
use live_core::{Answer, Body, Event, Step, Verdict};

/// A number behind those that the trace has. The factor is the prime of the FNV hash for 64 bits.
fn behind(trace: u64, number: u64) -> u64 {
    trace.wrapping_mul(1_099_511_628_211).wrapping_add(number)
}

/// All of a home.
fn with_home(trace: u64, home: Home) -> u64 {
    let placed = behind(behind(trace, home.place), home.birth);
    behind(behind(placed, home.since), home.count)
}

/// A home or that there is none.
fn with_loaded(trace: u64, home: Option<Home>) -> u64 {
    match home {
        None => behind(trace, 1),
        Some(home) => with_home(behind(trace, 2), home),
    }
}

/// A place and where its bytes stand.
fn with_body(trace: u64, place: u64, body: Body) -> u64 {
    let placed = behind(trace, place);
    match body {
        Body::Disk => behind(placed, 1),
        Body::Command { lane, index } => behind(
            behind(behind(placed, 2), lane as u64),
            index as u64,
        ),
    }
}

/// A verdict.
fn with_verdict(trace: u64, verdict: Verdict) -> u64 {
    match verdict {
        Verdict::Trust => behind(trace, 1),
        Verdict::Absent => behind(trace, 2),
        Verdict::Same { place, body } => with_body(behind(trace, 3), place, body),
        Verdict::Differs { place, body } => with_body(behind(trace, 4), place, body),
    }
}

/// All of a step, but for its lane and key.
fn with_kind(trace: u64, step: Step) -> u64 {
    match step {
        Step::Claim { .. } => behind(trace, 1),
        Step::Loaded { home, .. } => with_loaded(behind(trace, 2), home),
        Step::Failed { .. } => behind(trace, 3),
        Step::Ref {
            index,
            verdict,
            place,
            ..
        } => {
            let placed = behind(behind(behind(trace, 4), index as u64), place);
            with_verdict(placed, verdict)
        }
        Step::Unref {
            index,
            place,
            birth,
            ..
        } => {
            let placed = behind(behind(behind(trace, 5), index as u64), place);
            behind(placed, birth)
        }
    }
}

/// All of an answer that is kept.
fn with_answer(trace: u64, answer: Answer) -> u64 {
    match answer {
        Answer::Lead => behind(trace, 1),
        Answer::Done => behind(trace, 2),
        Answer::New(home) => with_home(behind(trace, 3), home),
        Answer::Hit(home) => with_home(behind(trace, 4), home),
        Answer::Quota => behind(trace, 5),
        Answer::Clash => behind(trace, 6),
        Answer::Counted => behind(trace, 7),
        Answer::Loose => behind(trace, 8),
        _ => behind(trace, 9),
    }
}

/// The trace, with a step and its answer behind it where they are an event.
pub fn with_event(trace: u64, step: Step, answer: Answer) -> u64 {
    if !is_event(answer) {
        return trace;
    }
    let (lane, key) = of_step(step);
    let begun = behind(behind(trace, lane as u64), key as u64);
    with_answer(with_kind(begun, step), answer)
}

/// The trace of a lane's events in a history.
pub fn trace_in(events: &[Event], lane: u32) -> u64 {
    let mut trace = 0;
    for event in events {
        if of_step(event.step).0 == lane {
            trace = with_event(trace, event.step, event.answer);
        }
    }
    trace
}
