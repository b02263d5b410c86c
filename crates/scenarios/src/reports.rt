use crate::comparing::assert_same;
use crate::files::{
    SCENARIOS, SEVERAL_GROUPS, SHARED_BLOCK, Scenario, TWENTY_STAT, file_of_lengths,
    file_of_twenty_groups, file_of_writes, report_of_twenty_groups, report_of_writes,
};
use crate::running::{
    Ended, MAKE, RUN, assert_ended, assert_runs, assert_tells, run_file, small_disk,
};
use ddt_entry::{Sha256Key, WeakKey};
use disk_model::MemDisk;
use pool_model::{CommandAnswer, GroupNote, Kind, LaneNote, Outcome, WriteAnswer};
use session::Status;
use std::alloc::Global;
use std::process::Abort;
use std::test::Fail;

// Runs a command file over a new pool, and sees its report.
fn assert_reports(rt: &impl Abort, alloc: Global, file: &str, report: &str) -> Result<(), Fail> {
    let mut disk = small_disk(alloc)?;
    assert_runs(rt, alloc, MAKE, &mut disk, file, report)
}

#[test]
fn a_report_tells_answers_and_sums(rt: HostRuntime) -> Result<(), Fail> {
    for scenario in SCENARIOS {
        assert_reports(&rt, rt.alloc(), scenario.file, scenario.report)?;
    }
    Ok(())
}

#[test]
fn the_longest_block_is_stored(rt: HostRuntime) -> Result<(), Fail> {
    let text = file_of_lengths(rt.alloc(), 1000, &[4096])?;
    let want =
        "group 2 sealed\n0 write 1 new\nstat 2\nquota none\nkeys 1\nunique 1\nduplicate 0\nrefs 1\nloose 0\nplain 0\nallocated 4096\nreferenced 4096\nbucket 1 keys 1 allocated 4096 referenced 4096\n";
    assert_reports(&rt, rt.alloc(), text.as_str(), want)
}

// Runs a group of so many writes over a blank disk, and sees its report.
fn assert_writes(
    rt: &impl Abort,
    alloc: Global,
    disk: &mut MemDisk,
    writes: u32,
) -> Result<(), Fail> {
    let file = file_of_writes(alloc, writes)?;
    let report = report_of_writes(alloc, writes)?;
    assert_runs(rt, alloc, MAKE, disk, file.as_str(), report.as_str())
}

#[test]
fn a_group_that_fits_is_sealed(rt: HostRuntime) -> Result<(), Fail> {
    // An empty pool has 2,016 of its 2,048 sectors free, and 64 writes need 64 + 2 * (6 * 64 + 392) + 398 = 2014.
    let mut disk = small_disk(rt.alloc())?;
    assert_writes(&rt, rt.alloc(), &mut disk, 64)
}

#[test]
fn a_thousand_writes_are_told(rt: HostRuntime) -> Result<(), Fail> {
    // They need 1000 + 2 * (6 * 1000 + 392) + 398 = 14182 sectors.
    let mut disk = MemDisk::new(rt.alloc(), 16_384)?;
    assert_writes(&rt, rt.alloc(), &mut disk, 1_000)
}

// One text behind another.
fn joined(alloc: Global, front: &str, back: &str) -> Result<String, Fail> {
    let mut text = String::from_str(alloc, front)?;
    text.push_str(back)?;
    Ok(text)
}

// Runs a file with this report and then another one over a new pool, and sees both reports.
fn assert_goes_on(rt: &impl Abort, alloc: Global, first: &str, told: &str) -> Result<(), Fail> {
    let file = joined(alloc, first, SHARED_BLOCK.file)?;
    let report = joined(alloc, told, SHARED_BLOCK.report)?;
    assert_reports(rt, alloc, file.as_str(), report.as_str())
}

#[test]
fn a_session_goes_on_behind_a_group_without_room(rt: HostRuntime) -> Result<(), Fail> {
    // 65 writes need 65 + 2 * (6 * 65 + 392) + 398 = 2027.
    let first = file_of_writes(rt.alloc(), 65)?;
    let refused =
        "group 2 nospace 2027 2016\nstat 1\nquota none\nkeys 0\nunique 0\nduplicate 0\nrefs 0\nloose 0\nplain 0\nallocated 0\nreferenced 0\n";
    assert_goes_on(&rt, rt.alloc(), first.as_str(), refused)
}

#[test]
fn contents_that_share_a_key_share_a_block(rt: HostRuntime) -> Result<(), Fail> {
    let file = "group 1000\n0 write 1 6161\n0 write 2 6162\n0 write 3 61\nend\nstat\n";
    let want =
        "group 2 sealed\n0 write 1 new\n0 write 2 hit\n0 write 3 new\nstat 2\nquota none\nkeys 2\nunique 1\nduplicate 1\nrefs 3\nloose 0\nplain 0\nallocated 3\nreferenced 5\nbucket 1 keys 1 allocated 1 referenced 1\nbucket 2 keys 1 allocated 2 referenced 4\n";
    let mut disk = small_disk(rt.alloc())?;
    let ended = run_file(rt.alloc(), &WeakKey, MAKE, &mut disk, file)?;
    assert_ended(&rt, &ended, Status::Done, want)
}

/// Runs a file over a blank disk, and another behind it.
fn go_on(rt: &impl Abort, alloc: Global, disk: &mut MemDisk) -> Result<(), Fail> {
    let Scenario { file, report } = SEVERAL_GROUPS;
    assert_runs(rt, alloc, MAKE, disk, file, report)?;
    // Slot 1 is taken, and the blocks of slots 3 and 5 are those of slots 1 and 0.
    let file =
        "import\ngroup 2000\n0 write 1 61\n0 write 3 6262\n0 write 4 63\nend\ngroup 0\n0 write 5 61\nend\nimport\n";
    let report =
        "import 4\ngroup 5 sealed\n0 write 1 taken\n0 write 3 hit\n0 write 4 new\ngroup 6 sealed\n0 write 5 hit\nimport 6\n";
    assert_runs(rt, alloc, RUN, disk, file, report)?;
    let stat =
        "stat 6\nquota none\nkeys 3\nunique 1\nduplicate 2\nrefs 6\nloose 0\nplain 0\nallocated 4\nreferenced 8\nbucket 1 keys 1 allocated 1 referenced 1\nbucket 2 keys 2 allocated 3 referenced 7\n";
    assert_tells(rt, alloc, "stat", disk, Status::Done, stat)?;
    assert_runs(rt, alloc, RUN, disk, "stat\n", stat)
}

#[test]
fn a_session_goes_on_where_the_last_one_ended(rt: HostRuntime) -> Result<(), Fail> {
    let mut disk = small_disk(rt.alloc())?;
    go_on(&rt, rt.alloc(), &mut disk)
}

/// Runs twenty groups over a blank disk.
fn go_round(rt: &impl Abort, alloc: Global, disk: &mut MemDisk) -> Result<(), Fail> {
    let file = file_of_twenty_groups(alloc)?;
    let report = report_of_twenty_groups(alloc)?;
    assert_runs(rt, alloc, MAKE, disk, file.as_str(), report.as_str())?;
    assert_tells(rt, alloc, "stat", disk, Status::Done, TWENTY_STAT)
}

#[test]
fn groups_go_round_the_ring(rt: HostRuntime) -> Result<(), Fail> {
    let mut disk = small_disk(rt.alloc())?;
    go_round(&rt, rt.alloc(), &mut disk)
}

// Whether a command is a write that answered so.
fn is_write(answer: Option<&CommandAnswer>, want: WriteAnswer) -> bool {
    match answer {
        Some(CommandAnswer::Write(answer)) => *answer == want,
        _ => false,
    }
}

// Sees that a group's note is that of lanes of group 2, sealed.
fn assert_sealed(rt: &impl Abort, note: &GroupNote) {
    assert_same(rt, "the group", note.number, 2);
    assert_same(rt, "the homes taken", note.taken, 0);
    assert_same(rt, "the kind", note.kind, Kind::Lanes);
    assert_same(rt, "the outcome", note.outcome, Outcome::Sealed);
    assert_same(rt, "the lanes", note.lanes.len(), 1);
}

// Sees that lane 0 stored a block at one place, and shared it then.
fn assert_shared(rt: &impl Abort, lane: &LaneNote) {
    assert_same(rt, "the lane", lane.lane, 0);
    assert_same(rt, "the faults", lane.faults, 0);
    assert_same(rt, "the answers", lane.answers.len(), 2);
    assert_same(rt, "the places", lane.fresh.len(), 1);
    let is_new = is_write(lane.answers.get(0), WriteAnswer::New);
    assert_same(rt, "whether the first is new", is_new, true);
    let is_hit = is_write(lane.answers.get(1), WriteAnswer::Hit);
    assert_same(rt, "whether the second is a hit", is_hit, true);
}

// The only note of a session, with that of its only lane.
fn only_note(rt: &impl Abort, ended: &Ended) -> Result<(), Fail> {
    let note = ended
        .session
        .groups
        .get(0)
        .ok_or("the session notes its group")?;
    assert_sealed(rt, note);
    let lane = note.lanes.get(0).ok_or("the group notes its lane")?;
    assert_shared(rt, lane);
    Ok(())
}

#[test]
fn the_notes_tell_answers_and_places(rt: HostRuntime) -> Result<(), Fail> {
    let mut disk = small_disk(rt.alloc())?;
    let ended = run_file(rt.alloc(), &Sha256Key, MAKE, &mut disk, SHARED_BLOCK.file)?;
    assert_same(&rt, "the newest group", ended.session.sealed, 2);
    assert_same(&rt, "the groups", ended.session.groups.len(), 1);
    only_note(&rt, &ended)
}
