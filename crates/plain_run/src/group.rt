ghost use Rattle.std.specs.Prelude.{◌≡◌, ℕ, List, [], IfOk, All, map, fold, replicate, ◌↔◌, IsTrue};
ghost use Rattle.pool_model.specs.Pool.{lane_count};
ghost use Rattle.pool_model.specs.Plain.{lane_told, told_of};
ghost use Rattle.pool_model.specs.Mirrors.{task_of, act_of};
ghost use Rattle.pool_model.specs.Command.{after};
ghost use Rattle.pool_model.specs.Group.{opened, course_of, turns_of, lane_by_lane, fresh_of};
ghost use Rattle.plain_run.specs.Openings.{opening_by};
ghost use Rattle.plain_run.specs.Courses.{WritesContent};

use crate::course::PlainCourse;
use crate::fresh::{PlaceQueue, set_places};
use crate::opening::PlainOpening;
use ddt_entry::KeyOf;
use plain_pool::{LANES, PlainPool};
use pool_model::{Command, GroupNote, LaneNote, Payload, Verb};
use std::alloc::{AllocError, Global};

impl PlainCourse {
    /// Before the first command.
    pub fn opened(alloc: Global, pool: PlainPool, fresh: Vec<PlaceQueue>) -> PlainCourse
        ensures { result ≡ opened pool fresh.items }
    {
        PlainCourse {
            pool,
            earlier: Vec::new(alloc),
            fresh,
            given: Vec::new(alloc),
            answers: Vec::new(alloc),
            touched: Vec::new(alloc),
        }
    }

    /// The commands of one lane in their order, with the answers that its note has of them.
    fn after_lane<K: KeyOf>(
        self,
        alloc: Global,
        keyer: &K,
        opening: &PlainOpening,
        commands: &[Command],
        note: &LaneNote,
    ) -> Result<PlainCourse, AllocError>
        requires { All (λ command. WritesContent (act_of command.verb)) commands.now }
        ensures { IfOk result (λ next. next ≡ fold (after (opening_by (K.keying keyer.now).key_of opening.now))
            self (turns_of (map task_of commands.now) (lane_told note.now))) }
    {
        let mut course = self;
        let mut answers = note.answers.as_slice();
        for command in commands {
            if command.lane == note.lane {
                let Some((noted, rest)) = answers.split_first() else {
                    return Ok(course);
                };
                course = course.after(alloc, keyer, opening, command, noted)?;
                answers = rest;
            }
        }
        Ok(course)
    }
}

/// Whether each content that these commands write has 1 to 2^32 - 1 bytes.
pub fn writes_contents(commands: &[Command]) -> bool
    ensures { IsTrue result ↔ All (λ command. WritesContent (act_of command.verb)) commands.now }
{
    commands.iter().all(|command| writes_content(&command.verb))
}

/// Whether the content that a command writes, if it does, has 1 to 2^32 - 1 bytes.
fn writes_content(verb: &Verb) -> bool
    ensures { IsTrue result ↔ WritesContent (act_of verb.now) }
{
    match verb {
        Verb::Write(Payload::Bytes(block)) => !block.is_empty()
            && block.len() <= u64::from(u32::MAX),
        Verb::Write(Payload::Repeat { times, .. }) => *times > 0,
        Verb::Read | Verb::Free => true,
    }
}

/// A group's lanes one after another, with the fresh places and the answers of its note. Each
/// answer that the course then has is one that the definitions give.
pub fn after_lanes<K: KeyOf>(
    alloc: Global,
    keyer: &K,
    opening: &PlainOpening,
    pool: PlainPool,
    commands: &[Command],
    note: &GroupNote,
) -> Result<PlainCourse, AllocError>
    requires { All (λ command. WritesContent (act_of command.verb)) commands.now }
    ensures { IfOk result (λ course. course
        ≡ course_of (opening_by (K.keying keyer.now).key_of opening.now) pool
        (fresh_of (told_of note.now).lanes) (lane_by_lane (map task_of commands.now) (told_of note.now))) }
{
    let notes = note.lanes.as_slice();
    let mut course = PlainCourse::opened(alloc, pool, fresh_of(alloc, notes)?);
    for lane in notes {
        course = course.after_lane(alloc, keyer, opening, commands, lane)?;
    }
    Ok(course)
}

/// The fresh places that each lane got.
fn fresh_of(alloc: Global, notes: &[LaneNote]) -> Result<Vec<PlaceQueue>, AllocError>
    ensures { IfOk result (λ fresh. fresh.items ≡ fresh_of (map lane_told notes.now)) }
{
    let mut fresh = no_places(alloc)?;
    for note in notes {
        let places = Vec::from_slice(alloc, note.fresh.as_slice())?;
        fresh = set_places(fresh, note.lane, PlaceQueue { places });
    }
    Ok(fresh)
}

/// No places for any lane.
fn no_places(alloc: Global) -> Result<Vec<PlaceQueue>, AllocError>
    ensures { IfOk result (λ fresh. fresh.items ≡ replicate lane_count []) }
{
    let mut fresh = Vec::new(alloc);
    for _lane in 0..LANES {
        fresh.push(PlaceQueue {
            places: Vec::new(alloc),
        })?;
    }
    Ok(fresh)
}
