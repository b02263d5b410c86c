//! A log of many changes that is flushed in pieces: how far each sync brings it, and what stands where a sync is cut
//! short in the middle of the flush, with each choice of a crash.

use crate::appended::{file_of_a_thousand, push_group};
use crate::comparing::{assert_same, assert_same_at};
use crate::crashes::crashed;
use crate::running::{Ended, MAKE, RUN, assert_runs, assert_tells, run_file};
use ddt_entry::Sha256Key;
use disk_model::MemDisk;
use pool_import::import;
use session::Status;
use std::alloc::{AllocError, Global};
use std::process::Abort;
use std::test::Fail;
use table_state::Pool;

/// What a pool keeps: its group, how many homes are stored, how many changes are left to flush, how many keys the
/// active list has, the age, how many changes the flushing log keeps and how many the active one, and how many pages the
/// image takes.
type Row = [u64; 8];

/// The rows of groups 2 to 11.
///
/// Group 2 writes a thousand contents, so the logs swap at once. Group 3 writes one more, and the others nothing. A
/// sync flushes 64 changes and an eighth of what was left before it: 189, 165, 144, 126, 111, 97, 85, 74, and then the
/// last 9. The flushing log is kept whole for so long. In group 11 nothing of it is left, and the active log, of age 9,
/// takes its place.
///
/// A page has 56 records: the slots take 18, the flushing log 18 and the active one 1, and the stored homes 4, 7, 9, 12,
/// 14, 15, 17, 18 and 18. In group 11 the one log that isn't empty takes 1.
const COURSE: [Row; 10] = [
    [2, 0, 1_000, 0, 0, 1_000, 0, 36],
    [3, 189, 811, 1, 1, 1_000, 1, 41],
    [4, 354, 646, 1, 2, 1_000, 1, 44],
    [5, 498, 502, 1, 3, 1_000, 1, 46],
    [6, 624, 376, 1, 4, 1_000, 1, 49],
    [7, 735, 265, 1, 5, 1_000, 1, 51],
    [8, 832, 168, 1, 6, 1_000, 1, 52],
    [9, 917, 83, 1, 7, 1_000, 1, 54],
    [10, 991, 9, 1, 8, 1_000, 1, 55],
    [11, 1_000, 1, 0, 0, 1, 0, 37],
];

/// A group without commands.
const NOTHING: &str = "group 1000\nend\n";

/// A group that writes one more content.
const ONE_MORE: &str = "group 1000\n0 write 6000 ffff\nend\n";

/// What a pool in memory keeps.
fn kept_by(pool: &Pool) -> Row {
    let table = &pool.table;
    let logs = &table.logs;
    [
        pool.sealed,
        table.classes.len(),
        logs.len(1),
        logs.len(0),
        table.age,
        logs.changes(1),
        logs.changes(0),
        pool.pages.len(),
    ]
}

/// What the pool on a disk keeps.
fn kept_on(alloc: Global, disk: &mut MemDisk) -> Result<Row, Fail> {
    let Some(pool) = import(alloc, disk, &Sha256Key)? else {
        return Err("no pool was found".into());
    };
    Ok(kept_by(&pool))
}

/// Runs a command file on a word, which has to be done.
fn run_done(
    rt: &impl Abort,
    alloc: Global,
    disk: &mut MemDisk,
    word: &str,
    file: &str,
) -> Result<(), Fail> {
    let Ended { status, .. } = run_file(alloc, &Sha256Key, word, disk, file)?;
    assert_same(rt, "the status", status, Status::Done);
    Ok(())
}

/// Runs a file over the pool on a disk, and sees what it keeps then.
fn run_to(
    rt: &impl Abort,
    alloc: Global,
    disk: &mut MemDisk,
    file: &str,
    row: Row,
) -> Result<(), Fail> {
    run_done(rt, alloc, disk, RUN, file)?;
    let kept = kept_on(alloc, disk)?;
    assert_same(rt, "what the pool keeps", kept, row);
    Ok(())
}

/// Runs one group without commands for each of these rows.
fn run_through(
    rt: &impl Abort,
    alloc: Global,
    disk: &mut MemDisk,
    rows: &[Row],
) -> Result<(), Fail> {
    for row in rows {
        run_to(rt, alloc, disk, NOTHING, *row)?;
    }
    Ok(())
}

/// Makes the pool of the course, with its groups 2 and 3.
fn make_course(rt: &impl Abort, alloc: Global, disk: &mut MemDisk) -> Result<(), Fail> {
    let file = file_of_a_thousand(alloc)?;
    run_done(rt, alloc, disk, MAKE, file.as_str())?;
    run_to(rt, alloc, disk, "", COURSE[0])?;
    run_to(rt, alloc, disk, ONE_MORE, COURSE[1])
}

#[test]
fn each_sync_flushes_its_share(rt: HostRuntime) -> Result<(), Fail> {
    let mut disk = MemDisk::new(rt.alloc(), 16_384)?;
    make_course(&rt, rt.alloc(), &mut disk)?;
    run_through(&rt, rt.alloc(), &mut disk, &COURSE[2..])
}

/// A group without commands whose sync is cut: how many calls of the disk a session makes that runs it, and what the
/// pool keeps before it and behind it.
#[derive(Clone, Copy)]
struct Cut {
    calls: u64,
    before: Row,
    after: Row,
}

/// How many calls a session over an empty group makes beside those that write pages: a barrier and a meter to import,
/// the meters of the group and of its sync, a barrier to take the slot, the body, its barrier, the gate, and its barrier.
const CALLS_BESIDE_PAGES: u64 = 9;

/// The cut of group 10, of which the flush goes on.
const GROUP_10: Cut = Cut {
    calls: CALLS_BESIDE_PAGES + 55,
    before: [9, 917, 83, 1, 7, 1_000, 1, 54],
    after: [10, 991, 9, 1, 8, 1_000, 1, 55],
};

/// The cut of group 11, which ends the flush and swaps the logs.
const GROUP_11: Cut = Cut {
    calls: CALLS_BESIDE_PAGES + 37,
    before: [10, 991, 9, 1, 8, 1_000, 1, 55],
    after: [11, 1_000, 1, 0, 0, 1, 0, 37],
};

/// Runs a group without commands of which every call from this one on fails.
fn run_cut(rt: &impl Abort, alloc: Global, disk: &mut MemDisk, call: u64) -> Result<(), Fail> {
    let before = disk.calls_made();
    disk.fail_from(before.saturating_add(call));
    let Ended { status, .. } = run_file(alloc, &Sha256Key, RUN, disk, NOTHING)?;
    assert_same_at(rt, "the status at call", call, status, Status::WriteFault);
    Ok(())
}

/// Runs a group so, crashes by this choice, and sees what the pool keeps then.
fn cut_at(
    rt: &impl Abort,
    alloc: Global,
    mut disk: MemDisk,
    call: u64,
    choice: u8,
    row: Row,
) -> Result<MemDisk, Fail> {
    run_cut(rt, alloc, &mut disk, call)?;
    let mut left = crashed(rt, disk, choice)?;
    let kept = kept_on(alloc, &mut left)?;
    assert_same_at(rt, "what the pool keeps at call", call, kept, row);
    Ok(left)
}

/// Cuts a group at each of its calls ahead of the gate's barrier: the gate isn't written, and the group before stands.
fn cut_before_the_gate(
    rt: &impl Abort,
    alloc: Global,
    disk: MemDisk,
    cut: Cut,
    choice: u8,
) -> Result<MemDisk, Fail> {
    let mut left = disk;
    for call in 1..cut.calls {
        left = cut_at(rt, alloc, left, call, choice, cut.before)?;
    }
    Ok(left)
}

/// Runs a group whole, and crashes then: it stands.
fn crash_behind(
    rt: &impl Abort,
    alloc: Global,
    mut disk: MemDisk,
    choice: u8,
    row: Row,
) -> Result<MemDisk, Fail> {
    run_done(rt, alloc, &mut disk, RUN, NOTHING)?;
    let mut left = crashed(rt, disk, choice)?;
    let kept = kept_on(alloc, &mut left)?;
    assert_same(rt, "what the pool keeps behind the group", kept, row);
    Ok(left)
}

/// A disk with the pool of group 9.
fn with_nine_groups(rt: &impl Abort, alloc: Global) -> Result<MemDisk, Fail> {
    let mut disk = MemDisk::new(alloc, 16_384)?;
    make_course(rt, alloc, &mut disk)?;
    run_through(rt, alloc, &mut disk, &COURSE[2..8])?;
    Ok(disk)
}

/// Cuts groups 10 and 11 before the gate, at each call, and then runs each whole.
fn cut_both(rt: &impl Abort, alloc: Global, choice: u8) -> Result<(), Fail> {
    let mut disk = with_nine_groups(rt, alloc)?;
    for cut in [GROUP_10, GROUP_11] {
        disk = cut_before_the_gate(rt, alloc, disk, cut, choice)?;
        disk = crash_behind(rt, alloc, disk, choice, cut.after)?;
    }
    Ok(())
}

/// Whether a crash by this choice keeps the gate of a group, which is written and doesn't last yet: by the last choice a
/// sector is kept whose number leaves 1 when divided by 3, and the gates of groups 10 and 11 are sectors 20 and 22.
fn keeps_gate(choice: u8, group: u64) -> bool {
    choice == 1 || (choice == 3 && group == 11)
}

/// Cuts a group at its last call, the gate's barrier: the group stands where the crash keeps the gate. Else it is run
/// once more.
fn cut_at_the_gate(
    rt: &impl Abort,
    alloc: Global,
    disk: MemDisk,
    cut: Cut,
    choice: u8,
) -> Result<MemDisk, Fail> {
    if keeps_gate(choice, cut.after[0]) {
        return cut_at(rt, alloc, disk, cut.calls, choice, cut.after);
    }
    let left = cut_at(rt, alloc, disk, cut.calls, choice, cut.before)?;
    crash_behind(rt, alloc, left, choice, cut.after)
}

/// Cuts groups 10 and 11 so.
fn cut_both_gates(rt: &impl Abort, alloc: Global, choice: u8) -> Result<(), Fail> {
    let mut disk = with_nine_groups(rt, alloc)?;
    for cut in [GROUP_10, GROUP_11] {
        disk = cut_at_the_gate(rt, alloc, disk, cut, choice)?;
    }
    Ok(())
}

/// Cuts groups 10 and 11 at each of their calls, and crashes by this choice.
fn cut_by(rt: &impl Abort, alloc: Global, choice: u8) -> Result<(), Fail> {
    cut_both(rt, alloc, choice)?;
    cut_both_gates(rt, alloc, choice)
}

#[test]
fn a_cut_flush_leaves_a_whole_group_where_old_bytes_stay(rt: HostRuntime) -> Result<(), Fail> {
    cut_by(&rt, rt.alloc(), 0)
}

#[test]
fn a_cut_flush_leaves_a_whole_group_where_new_bytes_stay(rt: HostRuntime) -> Result<(), Fail> {
    cut_by(&rt, rt.alloc(), 1)
}

#[test]
fn a_cut_flush_leaves_a_whole_group_where_bytes_are_spoilt(rt: HostRuntime) -> Result<(), Fail> {
    cut_by(&rt, rt.alloc(), 2)
}

#[test]
fn a_cut_flush_leaves_a_whole_group_whatever_each_sector_keeps(
    rt: HostRuntime,
) -> Result<(), Fail> {
    cut_by(&rt, rt.alloc(), 3)
}

/// Five groups, each of a thousand contents of its own.
fn file_of_five_thousand(alloc: Global) -> Result<String, AllocError> {
    let mut file = String::new(alloc);
    for first in [0u32, 1_000, 2_000, 3_000, 4_000] {
        push_group(alloc, &mut file, first, first, 1_000)?;
    }
    Ok(file)
}

/// What the pool of five thousand blocks keeps in group 6. The logs swapped in group 2, and groups 3 to 6 flushed 189,
/// 165, 144 and 126 changes, while the active log took the other four thousand. The slots take 90 pages, the stored
/// homes 12, the active log 72 and the flushing one 18.
///
/// Group 6 had the least room to spare: before it there were 153 pages and 4,000 blocks, so 20480 - 32 - 153 - 4000 =
/// 16295 sectors were free, and it needed 1000 + 2 * (153 + 6 * 1000 + 578) + 584 = 15046.
const FIVE_THOUSAND: Row = [6, 624, 376, 4_000, 4, 1_000, 4_000, 192];

/// The same behind group 7, which flushes 64 + 376 / 8 = 111 changes and writes one content: the stored homes take 14
/// pages.
const ONE_MORE_THAN_THAT: Row = [7, 735, 265, 4_001, 5, 1_000, 4_001, 194];

/// What `stat` tells of it in group 6: each key has two bytes.
const FIVE_THOUSAND_STAT: &str =
    "stat 6\nquota none\nkeys 5000\nunique 5000\nduplicate 0\nrefs 5000\nloose 0\nplain 0\nallocated 10000\nreferenced 10000\nbucket 1 keys 5000 allocated 10000 referenced 10000\n";

/// And behind group 7.
const ONE_MORE_STAT: &str =
    "stat 7\nquota none\nkeys 5001\nunique 5001\nduplicate 0\nrefs 5001\nloose 0\nplain 0\nallocated 10002\nreferenced 10002\nbucket 1 keys 5001 allocated 10002 referenced 10002\n";

/// Choices of a crash, and the call at which an empty group 7 is cut. Its calls 6 to 199 write 194 pages: 90 of slots, 14
/// of stored homes from call 96 on, 72 of the active log from call 110 on, and 18 of the flushing one. So it is cut in
/// the middle of the slots, of the stored homes and of the active log, and at call 201, the barrier ahead of the gate.
const CUTS_OF_GROUP_7: [(u8, u64); 4] = [(0, 50), (1, 103), (2, 150), (3, 201)];

/// Sees that a pool is told so.
fn assert_stat(rt: &impl Abort, alloc: Global, disk: &mut MemDisk, stat: &str) -> Result<(), Fail> {
    assert_tells(rt, alloc, "stat", disk, Status::Done, stat)
}

/// Makes the pool of five thousand blocks.
fn make_five_thousand(rt: &impl Abort, alloc: Global, disk: &mut MemDisk) -> Result<(), Fail> {
    let file = file_of_five_thousand(alloc)?;
    run_done(rt, alloc, disk, MAKE, file.as_str())?;
    run_to(rt, alloc, disk, "", FIVE_THOUSAND)?;
    assert_stat(rt, alloc, disk, FIVE_THOUSAND_STAT)
}

/// A disk with the pool of five thousand blocks, of which group 7 was cut several times.
fn with_five_thousand(rt: &impl Abort, alloc: Global) -> Result<MemDisk, Fail> {
    let mut disk = MemDisk::new(alloc, 20_480)?;
    make_five_thousand(rt, alloc, &mut disk)?;
    for (choice, call) in CUTS_OF_GROUP_7 {
        disk = cut_at(rt, alloc, disk, call, choice, FIVE_THOUSAND)?;
        assert_stat(rt, alloc, &mut disk, FIVE_THOUSAND_STAT)?;
    }
    Ok(disk)
}

/// Runs one more group over it.
fn run_one_more(rt: &impl Abort, alloc: Global, disk: &mut MemDisk) -> Result<(), Fail> {
    let report = "group 7 sealed\n0 write 6000 new\n";
    assert_runs(rt, alloc, RUN, disk, ONE_MORE, report)?;
    run_to(rt, alloc, disk, "", ONE_MORE_THAN_THAT)?;
    assert_stat(rt, alloc, disk, ONE_MORE_STAT)
}

#[test]
fn a_pool_of_five_thousand_blocks_goes_on_behind_a_cut_flush(rt: HostRuntime) -> Result<(), Fail> {
    let mut disk = with_five_thousand(&rt, rt.alloc())?;
    run_one_more(&rt, rt.alloc(), &mut disk)
}
