use crate::comparing::assert_same_at;
use crate::files::{EMPTY_STAT, ONE_STAT, ONE_WRITE, SHARED_BLOCK, SHARED_STAT};
use crate::running::{
    Ended, MAKE, RUN, assert_ended, assert_opens, assert_tells, look_over, run_over, sink_of,
    small_disk, source_of,
};
use ddt_entry::Sha256Key;
use disk_model::MemDisk;
use io_model::{Failed, Sink};
use session::Status;
use std::alloc::{AllocError, Global};
use std::process::Abort;
use std::test::Fail;

/// A blank disk of which the read of this number fails through its first meter.
fn unread_disk(alloc: Global, read: u64) -> Result<MemDisk, AllocError> {
    let mut disk = small_disk(alloc)?;
    disk.fail_reads(1, read, read);
    Ok(disk)
}

/// Sees what each word is answered on such a disk.
fn assert_no_read(rt: &impl Abort, alloc: Global, read: u64) -> Result<(), Fail> {
    for word in [RUN, MAKE] {
        let mut disk = unread_disk(alloc, read)?;
        assert_opens(rt, alloc, word, &mut disk, Status::ReadFault)?;
    }
    for word in ["stat", "create"] {
        let mut disk = unread_disk(alloc, read)?;
        assert_tells(rt, alloc, word, &mut disk, Status::ReadFault, "")?;
    }
    Ok(())
}

#[test]
fn a_disk_that_is_not_read_is_no_blank_one(rt: HostRuntime) -> Result<(), Fail> {
    // The 16 gates are read one after another, and none is open.
    for read in [1u64, 2, 15, 16] {
        assert_no_read(&rt, rt.alloc(), read)?;
    }
    let mut disk = unread_disk(rt.alloc(), 17)?;
    assert_opens(&rt, rt.alloc(), RUN, &mut disk, Status::NoPool)
}

/// A blank disk of which this call fails.
fn failing_disk(alloc: Global, call: u64) -> Result<MemDisk, AllocError> {
    let mut disk = small_disk(alloc)?;
    disk.fail_call(call);
    Ok(disk)
}

/// Sees what each word is answered on such a disk.
fn assert_no_disk(rt: &impl Abort, alloc: Global, call: u64) -> Result<(), Fail> {
    for word in [RUN, MAKE] {
        let mut disk = failing_disk(alloc, call)?;
        assert_opens(rt, alloc, word, &mut disk, Status::WriteFault)?;
    }
    for word in ["stat", "create"] {
        let mut disk = failing_disk(alloc, call)?;
        assert_tells(rt, alloc, word, &mut disk, Status::WriteFault, "")?;
    }
    Ok(())
}

#[test]
fn a_disk_that_fails_is_no_blank_one(rt: HostRuntime) -> Result<(), Fail> {
    // The first call is the meter, and the second the barrier before anything is read.
    for call in [1u64, 2] {
        assert_no_disk(&rt, rt.alloc(), call)?;
    }
    let mut disk = failing_disk(rt.alloc(), 3)?;
    assert_opens(&rt, rt.alloc(), RUN, &mut disk, Status::NoPool)
}

/// A file of two groups. Its report has five lines, each written by one call.
const FILE: &str = "group 1000\n0 write 1 61\nend\nimport\ngroup 1001\n0 write 1 62\nend\n";

/// The report's lines.
const LINES: [&str; 5] = [
    "group 2 sealed\n",
    "0 write 1 new\n",
    "import 2\n",
    "group 3 sealed\n",
    "0 write 1 taken\n",
];

/// What `stat` tells behind both groups.
const BOTH_STAT: &str =
    "stat 3\nquota none\nkeys 1\nunique 1\nduplicate 0\nrefs 1\nloose 0\nplain 0\nallocated 1\nreferenced 1\nbucket 1 keys 1 allocated 1 referenced 1\n";

/// The report before this call of the sink.
fn front_before(alloc: Global, call: usize) -> Result<String, AllocError> {
    let mut front = String::new(alloc);
    for line in LINES.iter().take(call.saturating_sub(1)) {
        front.push_str(line)?;
    }
    Ok(front)
}

/// Runs a file with `make` over this disk, where this call of the sink fails.
fn run_unwritten(
    alloc: Global,
    disk: &mut MemDisk,
    file: &str,
    call: u64,
) -> Result<Ended, AllocError> {
    let mut input = source_of(alloc, file, 4096, &[])?;
    let out = sink_of(alloc, &[call])?;
    run_over(alloc, &Sha256Key, &[MAKE], disk, &mut input, out)
}

/// Sees what is told where this call of the sink fails.
fn assert_front(
    rt: &impl Abort,
    alloc: Global,
    disk: &mut MemDisk,
    call: u8,
    status: Status,
) -> Result<(), Fail> {
    let ended = run_unwritten(alloc, disk, FILE, call as u64)?;
    let front = front_before(alloc, call as usize)?;
    assert_ended(rt, &ended, status, front.as_str())
}

/// Sees what is told and left where this call of the sink fails.
fn assert_unwritten(
    rt: &impl Abort,
    alloc: Global,
    call: u8,
    status: Status,
    stat: &str,
) -> Result<(), Fail> {
    let mut disk = small_disk(alloc)?;
    assert_front(rt, alloc, &mut disk, call, status)?;
    assert_tells(rt, alloc, "stat", &mut disk, Status::Done, stat)
}

#[test]
fn a_failed_write_leaves_a_front_of_the_report(rt: HostRuntime) -> Result<(), Fail> {
    let fault = Status::SinkFault;
    for (call, status, stat) in [
        (1u8, fault, ONE_STAT),
        (2, fault, ONE_STAT),
        (3, fault, ONE_STAT),
        (4, fault, BOTH_STAT),
        (5, fault, BOTH_STAT),
        (6, Status::Done, BOTH_STAT),
    ] {
        assert_unwritten(&rt, rt.alloc(), call, status, stat)?;
    }
    Ok(())
}

/// Whether a report is a front of this one, and whole exactly where it is done.
fn is_front(ended: &Ended, report: &str) -> bool {
    let written = ended.out.bytes();
    let whole = written.len() == report.len();
    report.as_bytes().starts_with(written) && whole == (ended.status == Status::Done)
}

/// Sees what is told and left where this call of the sink fails in a `stat`.
fn assert_untold(rt: &impl Abort, alloc: Global, call: u64) -> Result<(), Fail> {
    let mut disk = small_disk(alloc)?;
    assert_some(rt, alloc, &mut disk, call)?;
    assert_tells(rt, alloc, "stat", &mut disk, Status::Done, SHARED_STAT)
}

/// Sees how far the report goes then.
fn assert_some(rt: &impl Abort, alloc: Global, disk: &mut MemDisk, call: u64) -> Result<(), Fail> {
    let ended = run_unwritten(alloc, disk, SHARED_BLOCK.file, call)?;
    let fits = is_front(&ended, SHARED_BLOCK.report);
    assert_same_at(rt, "a front at call", call, fits, true);
    let is_done = ended.status == Status::Done;
    assert_same_at(rt, "done at call", call, is_done, call == 15);
    Ok(())
}

#[test]
fn a_failed_write_changes_nothing_of_the_pool(rt: HostRuntime) -> Result<(), Fail> {
    // The report has fourteen lines, each written by one call.
    for call in 1..16u64 {
        assert_untold(&rt, rt.alloc(), call)?;
    }
    Ok(())
}

/// Sees what is told on a word where this call of the sink fails.
fn assert_half_told(
    rt: &impl Abort,
    alloc: Global,
    disk: &mut MemDisk,
    word: &str,
    call: u64,
    front: &str,
) -> Result<(), Fail> {
    let ended = look_over(alloc, &[word], disk, sink_of(alloc, &[call])?)?;
    assert_ended(rt, &ended, Status::SinkFault, front)
}

/// Creates a pool on a blank disk and looks at it, where the report isn't taken.
fn create_untold(rt: &impl Abort, alloc: Global, disk: &mut MemDisk) -> Result<(), Fail> {
    assert_half_told(rt, alloc, disk, "create", 1, "")?;
    assert_half_told(rt, alloc, disk, "stat", 2, "stat 1\n")?;
    assert_tells(rt, alloc, "stat", disk, Status::Done, EMPTY_STAT)
}

#[test]
fn what_is_not_told_is_done(rt: HostRuntime) -> Result<(), Fail> {
    let mut disk = small_disk(rt.alloc())?;
    create_untold(&rt, rt.alloc(), &mut disk)
}

/// Sees that nothing is done where this call of the source fails.
fn assert_no_file(rt: &impl Abort, alloc: Global, call: u64) -> Result<(), Fail> {
    let mut disk = small_disk(alloc)?;
    let mut input = source_of(alloc, ONE_WRITE.file, 7, &[call])?;
    let out = sink_of(alloc, &[1])?;
    let mut ended = run_over(alloc, &Sha256Key, &[MAKE], &mut disk, &mut input, out)?;
    assert_same_at(rt, "the disk's calls at", call, disk.calls_made(), 0);
    assert_unread(rt, &mut ended, call);
    Ok(())
}

/// Sees that a session did nothing, since this call of the source failed.
fn assert_unread(rt: &impl Abort, ended: &mut Ended, call: u64) {
    let fault = Status::SourceFault;
    assert_same_at(rt, "the status at", call, ended.status, fault);
    assert_same_at(rt, "nothing done at", call, ended.did_nothing(), true);
    // The sink's first call is still to come.
    let first = ended.out.write(b"x");
    assert_same_at(rt, "the sink's first call at", call, first, Err(Failed));
}

#[test]
fn a_failed_read_does_nothing_and_writes_nothing(rt: HostRuntime) -> Result<(), Fail> {
    // Five calls give the file's 33 bytes, and a sixth its end.
    for call in 1..7u64 {
        assert_no_file(&rt, rt.alloc(), call)?;
    }
    Ok(())
}
