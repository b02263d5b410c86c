use crate::lines::{Line, line_of};
use crate::telling::{write_answer, write_named, write_stats};
use ddt_entry::KeyOf;
use plain_run::{PlainCourse, PlainStanding, writes_contents};
use pool_model::{
    Command, CommandAnswer, FreeAnswer, GroupNote, Kind, LaneNote, LanesGroup, Mode, Outcome,
    PruneRule,
};
use reserved_list::ReservedList;
use std::alloc::{AllocError, Global};
use std::mem;
use std::process::Abort;
use std::test::Fail;

/// The note of a group of these commands after this group: an answer for each, none of them a fault,
/// and as many fresh places.
fn note_of(alloc: Global, commands: &[Command], group: u64) -> Result<GroupNote, AllocError> {
    let mut lanes = Vec::new(alloc);
    for lane in 0..16u32 {
        let note = lane_note_of(alloc, commands, lane, group)?;
        if !note.answers.is_empty() {
            lanes.push(note)?;
        }
    }
    Ok(GroupNote {
        number: group.wrapping_add(1),
        kind: Kind::Lanes,
        outcome: Outcome::Sealed,
        taken: 0,
        lanes: ReservedList::from_vec(lanes),
    })
}

/// The note of one lane.
fn lane_note_of(
    alloc: Global,
    commands: &[Command],
    lane: u32,
    group: u64,
) -> Result<LaneNote, AllocError> {
    let mut answers = Vec::new(alloc);
    let mut fresh = Vec::new(alloc);
    for (at, command) in commands.iter().enumerate() {
        if command.lane == lane {
            answers.push(CommandAnswer::Free(FreeAnswer::Empty))?;
            fresh.push(group.wrapping_mul(100).wrapping_add(at as u64))?;
        }
    }
    Ok(LaneNote {
        lane,
        answers: ReservedList::from_vec(answers),
        fresh: ReservedList::from_vec(fresh),
        faults: 0,
    })
}

/// Writes the answers of a group that the plain program ran.
fn write_answers(report: &mut String, course: &PlainCourse) -> Result<(), AllocError> {
    for answer in &course.answers {
        write_answer(report, &answer.answer)?;
    }
    Ok(())
}

/// What stands behind a group, of which the answers are written.
fn after_lanes<K: KeyOf>(
    rt: &impl Abort,
    alloc: Global,
    keyer: &K,
    standing: PlainStanding,
    group: &LanesGroup,
    report: &mut String,
) -> Result<PlainStanding, Fail> {
    assert!(rt; writes_contents(group.commands.as_slice()));
    assert!(rt; standing.pool.group < 1000);
    let note = note_of(alloc, group.commands.as_slice(), standing.pool.group)?;
    let course = standing.course(alloc, keyer, group, &note)?;
    write_answers(report, &course)?;
    Ok(standing.after_group(alloc, keyer, group, &note, Vec::new(alloc))?)
}

/// What stands behind a prune, of which the number of homes that it took is written.
fn after_prune(
    rt: &impl Abort,
    alloc: Global,
    standing: PlainStanding,
    at: u64,
    rule: PruneRule,
    report: &mut String,
) -> Result<PlainStanding, Fail> {
    assert!(rt; standing.pool.group < 1000);
    let taken = standing.pool.pruned(alloc, rule, at)?.len();
    write_named(report, " sealed", taken as u64)?;
    Ok(standing.after_prune(alloc, rule, at, Vec::new(alloc))?)
}

/// What stands behind a setting of the quota.
fn after_quota(
    rt: &impl Abort,
    alloc: Global,
    standing: PlainStanding,
    limit: u64,
) -> Result<PlainStanding, Fail> {
    assert!(rt; standing.pool.group < 1000);
    Ok(standing.after_quota(alloc, Some(limit), Vec::new(alloc))?)
}

/// What stands behind a setting of a lane's mode.
fn after_mode(
    rt: &impl Abort,
    alloc: Global,
    standing: PlainStanding,
    lane: u32,
    mode: Mode,
) -> Result<PlainStanding, Fail> {
    assert!(rt; standing.pool.group < 1000);
    Ok(standing.after_mode(alloc, lane, mode, Vec::new(alloc))?)
}

/// Writes the statistics of what stands.
fn write_stat(
    rt: &impl Abort,
    alloc: Global,
    standing: &PlainStanding,
    report: &mut String,
) -> Result<(), Fail> {
    assert!(rt; standing.pool.is_small());
    let stats = standing.pool.stats(alloc)?;
    write_stats(report, &stats)?;
    Ok(())
}

/// The group that is being read: its moment, and its commands so far.
#[derive(Drop)]
struct Reading {
    moment: u64,
    commands: Vec<Command>,
}

/// No group at all.
fn nothing_read(alloc: Global) -> Reading {
    Reading {
        moment: 0,
        commands: Vec::new(alloc),
    }
}

/// The group that was read, of which no command is left.
fn taken(alloc: Global, reading: &mut Reading) -> LanesGroup {
    let commands = mem::replace(&mut reading.commands, Vec::new(alloc));
    LanesGroup {
        moment: reading.moment,
        commands: ReservedList::from_vec(commands),
    }
}

/// The words of a line.
fn read_line(alloc: Global, text: &str) -> Result<Line, Fail> {
    let words: Vec<&str> = text.split_whitespace().collect(alloc)?;
    line_of(alloc, words.as_slice())
}

/// What stands behind a line that is no part of a group.
fn after_line(
    rt: &impl Abort,
    alloc: Global,
    standing: PlainStanding,
    line: Line,
    report: &mut String,
) -> Result<PlainStanding, Fail> {
    match line {
        Line::Prune(at, rule) => after_prune(rt, alloc, standing, at, rule, report),
        Line::Quota(limit) => after_quota(rt, alloc, standing, limit),
        Line::Mode(lane, mode) => after_mode(rt, alloc, standing, lane, mode),
        Line::Stat => {
            write_stat(rt, alloc, &standing, report)?;
            Ok(standing)
        }
        _ => Err("a line of a group")?,
    }
}

/// What stands behind a line, where the group that it ends is run.
fn after<K: KeyOf>(
    rt: &impl Abort,
    alloc: Global,
    keyer: &K,
    standing: PlainStanding,
    line: Line,
    reading: &mut Reading,
    report: &mut String,
) -> Result<PlainStanding, Fail> {
    match line {
        Line::Group(moment) => {
            reading.moment = moment;
            Ok(standing)
        }
        Line::Command(command) => {
            reading.commands.push(command)?;
            Ok(standing)
        }
        Line::End => {
            let group = taken(alloc, reading);
            after_lanes(rt, alloc, keyer, standing, &group, report)
        }
        line => after_line(rt, alloc, standing, line, report),
    }
}

/// What the plain program reports of a command file: the answers of each group, lane by lane, how many
/// homes a prune took, and the statistics. No answer hangs on the pages of an image, so none are given.
pub(crate) fn report_of<K: KeyOf>(
    rt: &impl Abort,
    alloc: Global,
    keyer: &K,
    file: &str,
) -> Result<String, Fail> {
    let mut report = String::new(alloc);
    let mut reading = nothing_read(alloc);
    run_lines(rt, alloc, keyer, file, &mut reading, &mut report)?;
    Ok(report)
}

/// Runs all lines of a command file, and writes what is reported of them.
fn run_lines<K: KeyOf>(
    rt: &impl Abort,
    alloc: Global,
    keyer: &K,
    file: &str,
    reading: &mut Reading,
    report: &mut String,
) -> Result<(), Fail> {
    let mut standing = PlainStanding::new(alloc, 2048);
    for text in file.split('/') {
        let line = read_line(alloc, text)?;
        standing = after(rt, alloc, keyer, standing, line, reading, report)?;
    }
    Ok(())
}
