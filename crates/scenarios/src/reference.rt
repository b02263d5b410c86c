use crate::comparing::assert_same;
use crate::files::{SCENARIOS, file_of_lengths, file_of_twenty_groups};
use crate::running::{Ended, MAKE, run_file, sink_of, small_disk, source_of};
use cmd_file::read_file;
use ddt_entry::Sha256Key;
use io_model::MemSink;
use plain_run::{PlainCourse, PlainStanding, writes_contents};
use pool_model::{Answers, CommandAnswer, CommandFile, GroupNote, Item, LanesGroup};
use report::write_item;
use session::Status;
use std::alloc::Global;
use std::process::Abort;
use std::test::Fail;

fn is_same(answer: &CommandAnswer, noted: &CommandAnswer) -> bool {
    match (answer, noted) {
        (CommandAnswer::Write(answer), CommandAnswer::Write(noted)) => *answer == *noted,
        _ => false,
    }
}

// Whether the plain program answered so.
fn answered(course: &PlainCourse, noted: &Answers) -> bool {
    let answers = course.answers.as_slice();
    answers.len() as u64 == noted.len()
        && answers
            .iter()
            .zip(noted.as_slice())
            .all(|(a, b)| is_same(&a.answer, b))
}

// Whether the plain program gave out these places.
fn gave(course: &PlainCourse, places: &[u64]) -> bool {
    let given = course.given.as_slice();
    given.len() == places.len()
        && given
            .iter()
            .zip(places)
            .all(|(run, place)| run.0 == *place && run.1 == 1)
}

// Whether the plain program answered what a group's note says, and took the places that it says.
fn is_as_noted(course: &PlainCourse, note: &GroupNote) -> bool {
    let Some(lane) = note.lanes.get(0) else {
        return course.answers.is_empty();
    };
    answered(course, &lane.answers) && gave(course, lane.fresh.as_slice())
}

// What stands behind a group that is run by the plain program, with the note that the session has of it.
fn plain_group(
    rt: &impl Abort,
    alloc: Global,
    standing: PlainStanding,
    group: &LanesGroup,
    note: &GroupNote,
) -> Result<PlainStanding, Fail> {
    assert!(rt; standing.pool.group < 1_000);
    assert!(rt; writes_contents(group.commands.as_slice()));
    let course = standing.course(alloc, &Sha256Key, group, note)?;
    let is_same = is_as_noted(&course, note);
    assert_same(rt, "whether the note says so", is_same, true);
    let opening = standing.opening(alloc, group.moment)?;
    Ok(standing.after_course(alloc, &opening, course, Vec::new(alloc))?)
}

// What stands behind all groups of a file.
fn plain_groups(
    rt: &impl Abort,
    alloc: Global,
    items: &[Item],
    notes: &[GroupNote],
) -> Result<PlainStanding, Fail> {
    let mut standing = PlainStanding::new(alloc, 2_048);
    let mut left = notes;
    for item in items {
        if let Item::Lanes(group) = item {
            let (note, rest) = left.split_first().ok_or("the session notes its groups")?;
            standing = plain_group(rt, alloc, standing, group, note)?;
            left = rest;
        }
    }
    Ok(standing)
}

// The text of a `stat` of a plain pool.
fn stat_text(rt: &impl Abort, alloc: Global, standing: &PlainStanding) -> Result<MemSink, Fail> {
    assert!(rt; standing.pool.is_small());
    let stats = standing.pool.stats(alloc)?;
    let mut out = sink_of(alloc, &[])?;
    write_item(
        &mut out,
        &Item::Stat,
        None,
        &stats,
        standing.pool.group,
        None,
    )?;
    Ok(out)
}

// A file over a new pool, run in a session.
fn run_made(rt: &impl Abort, alloc: Global, text: &str) -> Result<Ended, Fail> {
    let mut disk = small_disk(alloc)?;
    let ended = run_file(alloc, &Sha256Key, MAKE, &mut disk, text)?;
    assert_same(rt, text, ended.status, Status::Done);
    Ok(ended)
}

// What a file is read as.
fn items_of(alloc: Global, text: &str) -> Result<CommandFile, Fail> {
    let mut input = source_of(alloc, text, 4096, &[])?;
    Ok(read_file(alloc, &mut input)?)
}

// What stands behind the groups of a text, as the plain program runs them.
fn plain_text(
    rt: &impl Abort,
    alloc: Global,
    text: &str,
    notes: &[GroupNote],
) -> Result<PlainStanding, Fail> {
    let file = items_of(alloc, text)?;
    plain_groups(rt, alloc, file.items.as_slice(), notes)
}

// The text of a `stat` behind the groups of a text.
fn plain_stat(
    rt: &impl Abort,
    alloc: Global,
    text: &str,
    notes: &[GroupNote],
) -> Result<MemSink, Fail> {
    let standing = plain_text(rt, alloc, text, notes)?;
    stat_text(rt, alloc, &standing)
}

// Runs a file that ends with `stat` in a session, and its groups in the plain program beside it.
fn compare(rt: &impl Abort, alloc: Global, text: &str) -> Result<(), Fail> {
    let ended = run_made(rt, alloc, text)?;
    let notes = ended.session.groups.as_slice();
    let stat = plain_stat(rt, alloc, text, notes)?;
    let is_end = ended.out.bytes().ends_with(stat.bytes());
    assert_same(rt, text, is_end, true);
    Ok(())
}

#[test]
fn the_plain_program_answers_and_counts_the_same(rt: HostRuntime) -> Result<(), Fail> {
    for scenario in SCENARIOS {
        compare(&rt, rt.alloc(), scenario.file)?;
    }
    Ok(())
}

#[test]
fn the_plain_program_goes_on_from_group_to_group(rt: HostRuntime) -> Result<(), Fail> {
    let alloc = rt.alloc();
    let many = file_of_twenty_groups(alloc)?;
    compare(&rt, alloc, many.as_str())?;
    let longest = file_of_lengths(alloc, 1000, &[4096])?;
    compare(&rt, alloc, longest.as_str())
}
