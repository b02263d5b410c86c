use crate::files::{EMPTY_STAT, ONE_STAT};
use crate::running::{MAKE, RUN, assert_ended, assert_runs, assert_tells, run_file, small_disk};
use ddt_entry::Sha256Key;
use disk_model::MemDisk;
use session::Status;
use std::alloc::{AllocError, Global};
use std::process::Abort;
use std::test::Fail;

/// A file of two groups, of which the second shares the block of the first.
///
/// A new pool makes 8 calls of the disk: a meter and a barrier to look for a pool, a meter and a barrier to take the
/// slot of the ring, the body, its barrier, the gate, and its barrier. The first group makes 11: the meters of the
/// group, of its lane and of its sync, a barrier to take the slot, the block, a page of slots, a page of the active
/// log, the body, its barrier, the gate, and its barrier. The second makes the same but for the block, 10.
const FILE: &str = "group 1000\n0 write 1 61\nend\ngroup 1001\n0 write 2 61\nend\n";

/// How many calls of the disk a session over it makes.
const CALLS: u64 = 29;

/// What `stat` tells behind both groups.
const BOTH_STAT: &str =
    "stat 3\nquota none\nkeys 1\nunique 0\nduplicate 1\nrefs 2\nloose 0\nplain 0\nallocated 1\nreferenced 2\nbucket 2 keys 1 allocated 1 referenced 2\n";

/// The newest group of which the gate is written before this call, and 0 where there is none.
fn written_before(call: u64) -> u64 {
    if call <= 7 {
        return 0;
    }
    if call <= 18 {
        return 1;
    }
    if call <= 28 { 2 } else { 3 }
}

/// The newest group of which the gate lasts before this call, and 0 where there is none.
fn lasting_before(call: u64) -> u64 {
    if call <= 8 {
        return 0;
    }
    if call <= 19 {
        return 1;
    }
    if call <= 29 { 2 } else { 3 }
}

/// Whether a crash by this choice keeps a written gate that doesn't last yet, which is that of this group: by the last
/// choice a sector is kept whose number leaves 1 when divided by 3, and the gates are sectors 2, 4 and 6.
fn keeps(choice: u8, group: u64) -> bool {
    choice == 1 || (choice == 3 && group == 2)
}

/// The newest group on the disk after a crash by this choice, where every call from this one on failed.
fn left_after(choice: u8, call: u64) -> u64 {
    let written = written_before(call);
    if keeps(choice, written) {
        return written;
    }
    lasting_before(call)
}

/// The report where this call is the first that fails.
fn report_before(call: u64) -> &'static str {
    if call <= 19 {
        return "";
    }
    if call <= CALLS {
        return "group 2 sealed\n0 write 1 new\n";
    }
    "group 2 sealed\n0 write 1 new\ngroup 3 sealed\n0 write 2 hit\n"
}

/// How the session ends where this call is the first that fails.
fn status_before(call: u64) -> Status {
    if call <= CALLS {
        Status::WriteFault
    } else {
        Status::Done
    }
}

/// Makes a pool over a disk that was told to fail from this call on, or at this call alone, and sees how that ends.
fn make_over(rt: &impl Abort, alloc: Global, disk: &mut MemDisk, call: u64) -> Result<(), Fail> {
    let ended = run_file(alloc, &Sha256Key, MAKE, disk, FILE)?;
    assert_ended(rt, &ended, status_before(call), report_before(call))
}

/// What `stat` tells behind this group.
fn stat_of(group: u64) -> &'static str {
    match group {
        1 => EMPTY_STAT,
        2 => ONE_STAT,
        _ => BOTH_STAT,
    }
}

/// Sees that this group is the newest on a disk, and that there is none where it is 0.
fn assert_newest(
    rt: &impl Abort,
    alloc: Global,
    disk: &mut MemDisk,
    group: u64,
) -> Result<(), Fail> {
    if group == 0 {
        return assert_tells(rt, alloc, "stat", disk, Status::NoPool, "");
    }
    assert_tells(rt, alloc, "stat", disk, Status::Done, stat_of(group))
}

/// The report of a group of this number that writes a block of its own.
fn report_of(alloc: Global, group: u64) -> Result<String, AllocError> {
    format!(in alloc; "group {group} sealed\n0 write 9 new\n")
}

/// Sees that a session goes on behind this group, or with a new pool where it is 0.
fn assert_goes_on(
    rt: &impl Abort,
    alloc: Global,
    disk: &mut MemDisk,
    group: u64,
) -> Result<(), Fail> {
    let file = "group 2000\n0 write 9 6262\nend\n";
    if group == 0 {
        let report = report_of(alloc, 2)?;
        return assert_runs(rt, alloc, MAKE, disk, file, report.as_str());
    }
    let report = report_of(alloc, group.saturating_add(1))?;
    assert_runs(rt, alloc, RUN, disk, file, report.as_str())
}

/// Makes a pool over a disk of which this call alone fails.
fn fail_make(rt: &impl Abort, alloc: Global, disk: &mut MemDisk, call: u64) -> Result<(), Fail> {
    disk.fail_call(call);
    make_over(rt, alloc, disk, call)?;
    // Calls are counted from 1, so that none fails from here on.
    disk.fail_call(0);
    Ok(())
}

/// Sees that this group is the newest on a disk, and that a session goes on from there.
fn assert_left(rt: &impl Abort, alloc: Global, disk: &mut MemDisk, group: u64) -> Result<(), Fail> {
    assert_newest(rt, alloc, disk, group)?;
    assert_goes_on(rt, alloc, disk, group)
}

/// Fails this call alone, and sees what is on the disk then, and that a session goes on from there.
fn fail_at(rt: &impl Abort, alloc: Global, call: u64) -> Result<(), Fail> {
    let mut disk = small_disk(alloc)?;
    fail_make(rt, alloc, &mut disk, call)?;
    assert_left(rt, alloc, &mut disk, written_before(call))
}

/// The disk that a crash by this choice leaves.
pub(crate) fn crashed(rt: &impl Abort, disk: MemDisk, choice: u8) -> Result<MemDisk, Fail> {
    assert!(rt; choice <= 3);
    match disk.crash(choice) {
        Ok(left) => Ok(left),
        Err(_) => Err("no memory for the crash".into()),
    }
}

/// Fails every call from this one on, crashes by this choice, and sees what is left.
fn crash_at(rt: &impl Abort, alloc: Global, call: u64, choice: u8) -> Result<(), Fail> {
    let mut disk = small_disk(alloc)?;
    disk.fail_from(call);
    make_over(rt, alloc, &mut disk, call)?;
    let mut left = crashed(rt, disk, choice)?;
    assert_newest(rt, alloc, &mut left, left_after(choice, call))
}

/// Does so with each choice.
fn crash_from(rt: &impl Abort, alloc: Global, call: u64) -> Result<(), Fail> {
    for choice in [0u8, 1, 2, 3] {
        crash_at(rt, alloc, call, choice)?;
    }
    Ok(())
}

#[test]
fn a_failed_call_leaves_whole_groups(rt: HostRuntime) -> Result<(), Fail> {
    for call in 1..31u64 {
        fail_at(&rt, rt.alloc(), call)?;
    }
    Ok(())
}

#[test]
fn a_crash_leaves_whole_groups(rt: HostRuntime) -> Result<(), Fail> {
    for call in 1..31u64 {
        crash_from(&rt, rt.alloc(), call)?;
    }
    Ok(())
}
