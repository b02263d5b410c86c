//! What a group hands on when it closes: its note, and what its sync needs.

ghost use Rattle.std.specs.Prelude.{◌≡◌, ◌≤◌, ◌+◌, ◌^◌, ◌<◌, [], ◌∷◌, map, length, IfOk, OnErr};
ghost use Rattle.pool_model.specs.Plain.{reply_of, told_of};
ghost use Rattle.pool_model.specs.Mirrors.{task_of};
ghost use Rattle.table_state.specs.Closing.{IsInRange, block_places, closed_of};
ghost use Rattle.lane_run.specs.Live.{group_here};
ghost use Rattle.lane_run.specs.Going.{lanes_here};

use crate::closing::closed;
use crate::live::LiveGroup;
use pool_model::{Answers, Closed, Command, GroupFault, GroupNote, LaneNote, PlaceList};
use std::alloc::{AllocError, Global};
use table_state::Pool;

/// Notes what lane 0 did, where it had commands. The error is want of memory.
fn note_lane(
    note: &mut GroupNote,
    commands: &[Command],
    answers: Answers,
    fresh: PlaceList,
    faults: u64,
) -> Result<(), AllocError>
    requires unnoted { note.old.lanes.items ≡ [] }
    ensures noted { IfOk result (λ done. told_of note.new ≡ record (told_of note.old) {
      lanes = lanes_here (map task_of commands.now) (map reply_of answers.items) fresh.items faults;
    }) }
    ensures unnoted { OnErr result (told_of note.new ≡ told_of note.old) }
    ensures still { OnErr result (note.new.lanes.items ≡ []) }
{
    if commands.is_empty() {
        return Ok(());
    }
    note.lanes.reserve(1)?;
    note.lanes.push(LaneNote {
        lane: 0,
        answers,
        fresh,
        faults,
    });
    Ok(())
}

/// Closes a group of these commands, with so many faulty reads: notes its lane, and hands on what its sync needs.
/// The error is want of memory, after which no lane is noted.
pub fn ended(
    alloc: Global,
    pool: &Pool,
    live: LiveGroup,
    commands: &[Command],
    faults: u64,
    note: &mut GroupNote,
) -> Result<Closed, AllocError>
    requires last { pool.now.group < 2 ^ 63 }
    requires in_range { IsInRange pool.now (group_here pool.now live) }
    requires unnoted { note.old.lanes.items ≡ [] }
    ensures group { IfOk result (λ closed. closed_of closed ≡ group_here pool.now live) }
    ensures in_range { IfOk result (λ closed. IsInRange pool.now (closed_of closed)) }
    ensures noted { IfOk result (λ closed. told_of note.new ≡ record (told_of note.old) {
      lanes = lanes_here (map task_of commands.now) live.replies (block_places live.contents) faults;
    }) }
    ensures unnoted { OnErr result (told_of note.new ≡ told_of note.old) }
    ensures still { OnErr result (note.new.lanes.items ≡ []) }
{
    let (closed, answers, fresh) = closed(alloc, pool, live, pool.sealed + 1)?;
    note_lane(note, commands, answers, fresh, faults)?;
    Ok(closed)
}
