use crate::running::{MAKE, RUN, sink_of, source_of};
use ddt_entry::Sha256Key;
use disk_file::{FileDisk, OpenFault};
use pool_model::{GroupNotes, Session};
use session::{Status, inspect, run};
use std::alloc::Global;
use std::fs;
use std::process::Abort;
use std::test::Fail;

/// The pool's file, in the folder that the test runs in.
const PATH: &str = "scenarios lasting pool";

/// Two groups: the first shares a block, the second has one of its own.
const TWO_GROUPS: &str =
    "group 1000\n0 write 1 61\n0 write 2 61\nend\ngroup 1001\n0 write 3 62\nend\n";

/// Their report over a new pool.
const TWO_REPORT: &str =
    "group 2 sealed\n0 write 1 new\n0 write 2 hit\ngroup 3 sealed\n0 write 3 new\n";

/// What `stat` tells after them.
const TWO_STAT: &str =
    "stat 3\nquota none\nkeys 2\nunique 1\nduplicate 1\nrefs 3\nloose 0\nplain 0\nallocated 2\nreferenced 3\nbucket 1 keys 1 allocated 1 referenced 1\nbucket 2 keys 1 allocated 1 referenced 2\n";

/// Runs a command file on one word over the disk that was opened, closes it, and sees that it is done, with this report.
fn assert_runs(
    rt: &impl Abort,
    alloc: Global,
    disk: Result<FileDisk, OpenFault>,
    word: &str,
    text: &str,
    report: &str,
) -> Result<(), Fail> {
    let mut disk = disk?;
    let words = [String::from_str(alloc, word)?];
    let mut session = Session {
        groups: GroupNotes::new(alloc),
        sealed: 0,
    };
    let mut input = source_of(alloc, text, 7, &[])?;
    let mut out = sink_of(alloc, &[])?;
    let status = run(
        alloc,
        words.as_slice(),
        &mut disk,
        &mut input,
        &mut out,
        &Sha256Key,
        &mut session,
    );
    let told = str::from_utf8(out.bytes())?;
    assert_eq!(rt; (status, told), (Status::Done, report));
    Ok(())
}

/// Looks at the disk that was opened on one word, closes it, and sees how that ends, and with which report.
fn assert_tells(
    rt: &impl Abort,
    alloc: Global,
    disk: Result<FileDisk, OpenFault>,
    word: &str,
    status: Status,
    report: &str,
) -> Result<(), Fail> {
    let mut disk = disk?;
    let words = [String::from_str(alloc, word)?];
    let mut out = sink_of(alloc, &[])?;
    let ended = inspect(alloc, words.as_slice(), &mut disk, &mut out, &Sha256Key);
    let told = str::from_utf8(out.bytes())?;
    assert_eq!(rt; (ended, told), (status, report));
    Ok(())
}

#[test]
fn a_pool_in_a_file_is_there_when_the_file_is_opened_again(rt: HostRuntime) -> Result<(), Fail> {
    let alloc = rt.alloc();
    fs::remove_file(&rt, PATH).ok();
    let made = FileDisk::make(&rt, PATH, 2_048);
    assert_runs(&rt, alloc, made, MAKE, TWO_GROUPS, TWO_REPORT)?;
    let there = FileDisk::at_path(&rt, PATH);
    assert_runs(&rt, alloc, there, RUN, "", "")?;
    for (word, status, report) in [
        ("stat", Status::Done, TWO_STAT),
        ("create", Status::PoolExists(3), ""),
        ("stat", Status::Done, TWO_STAT),
    ] {
        let there = FileDisk::at_path(&rt, PATH);
        assert_tells(&rt, alloc, there, word, status, report)?;
    }
    fs::remove_file(&rt, PATH)?;
    Ok(())
}
