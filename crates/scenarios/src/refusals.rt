use crate::comparing::assert_same;
use crate::files::{ONE_WRITE, file_of_lengths};
use crate::running::{Ended, MAKE, look_over, run_over, sink_of, small_disk, source_of};
use ddt_entry::Sha256Key;
use disk_model::MemDisk;
use io_model::{Failed, MemSource, Sink, Source};
use pool_model::BadKind;
use session::Status;
use std::alloc::Global;
use std::process::Abort;
use std::test::Fail;

/// Sees that a session ended so before it called the disk or the sink, of which the first call fails.
fn assert_refused(rt: &impl Abort, ended: Ended, disk: &MemDisk, status: Status) {
    let mut ended = ended;
    assert_same(rt, "the status", ended.status, status);
    assert_same(rt, "nothing done", ended.did_nothing(), true);
    assert_same(rt, "the disk's calls", disk.calls_made(), 0);
    let first = ended.out.write(b"x");
    assert_same(rt, "the sink's first call", first, Err(Failed));
}

/// Sees that a file is refused for this line before anything is done.
fn assert_bad(
    rt: &impl Abort,
    alloc: Global,
    text: &str,
    line: u64,
    kind: BadKind,
) -> Result<(), Fail> {
    let mut disk = small_disk(alloc)?;
    let mut input = source_of(alloc, text, 4096, &[])?;
    let out = sink_of(alloc, &[1])?;
    let ended = run_over(alloc, &Sha256Key, &[MAKE], &mut disk, &mut input, out)?;
    assert_refused(rt, ended, &disk, Status::BadFile { line, kind });
    Ok(())
}

#[test]
fn a_malformed_file_does_nothing_and_writes_nothing(rt: HostRuntime) -> Result<(), Fail> {
    let rows = [
        (
            "group 1\r\n0 write 1 61\r\nend\r\nstat\r\n",
            1,
            BadKind::Form,
        ),
        ("group 1\n0 write 1 616\nend\nstat\n", 2, BadKind::Form),
        ("group 1\n0 write 65536 61\nend\nstat\n", 2, BadKind::Range),
        ("group 1\n0 write 01 61\nend\nstat\n", 2, BadKind::Form),
        ("group 1099511627776\nend\n", 1, BadKind::Range),
        ("group 1\n0 write 1 61\nstat\n", 3, BadKind::Form),
        ("group 1\n0 write 1 61\n", 3, BadKind::Open),
        ("stat\nimport\nstat\nx", 4, BadKind::Form),
        ("create\n", 1, BadKind::Form),
    ];
    for (text, line, kind) in rows {
        assert_bad(&rt, rt.alloc(), text, line, kind)?;
    }
    Ok(())
}

#[test]
fn a_block_past_a_page_does_nothing_and_writes_nothing(rt: HostRuntime) -> Result<(), Fail> {
    let alloc = rt.alloc();
    let text = file_of_lengths(alloc, 1, &[4_097])?;
    assert_bad(&rt, alloc, text.as_str(), 2, BadKind::Range)
}

/// Sees that a source was never called, of which the first call fails.
fn assert_unread(rt: &impl Abort, input: &mut MemSource) {
    let mut buffer = [0u8; 5];
    let first = input.read(&mut buffer);
    assert_same(rt, "the source's first call", first, Err(Failed));
    let second = input.read(&mut buffer);
    assert_same(rt, "the source's second call", second, Ok(5));
    assert_same(rt, "the file's front", buffer, *b"group");
}

/// Sees that `run` is not for these words.
fn assert_not_run(rt: &impl Abort, alloc: Global, words: &[&str]) -> Result<(), Fail> {
    let mut disk = small_disk(alloc)?;
    let mut input = source_of(alloc, ONE_WRITE.file, 4096, &[1])?;
    let out = sink_of(alloc, &[1])?;
    let ended = run_over(alloc, &Sha256Key, words, &mut disk, &mut input, out)?;
    assert_refused(rt, ended, &disk, Status::Usage);
    assert_unread(rt, &mut input);
    Ok(())
}

/// Sees that `inspect` is not for these words.
fn assert_not_looked(rt: &impl Abort, alloc: Global, words: &[&str]) -> Result<(), Fail> {
    let mut disk = small_disk(alloc)?;
    let ended = look_over(alloc, words, &mut disk, sink_of(alloc, &[1])?)?;
    assert_refused(rt, ended, &disk, Status::Usage);
    Ok(())
}

#[test]
fn other_words_do_nothing_and_write_nothing(rt: HostRuntime) -> Result<(), Fail> {
    let rows: [&[&str]; 10] = [
        &[],
        &[""],
        &["make", "make"],
        &["run", "make"],
        &["stat", "stat"],
        &["Make"],
        &["Stat"],
        &["make "],
        &["make", ""],
        &["create", ""],
    ];
    for words in rows {
        assert_not_run(&rt, rt.alloc(), words)?;
        assert_not_looked(&rt, rt.alloc(), words)?;
    }
    Ok(())
}

#[test]
fn each_word_has_its_one_call(rt: HostRuntime) -> Result<(), Fail> {
    assert_not_run(&rt, rt.alloc(), &["create"])?;
    assert_not_run(&rt, rt.alloc(), &["stat"])?;
    assert_not_looked(&rt, rt.alloc(), &["make"])?;
    assert_not_looked(&rt, rt.alloc(), &["run"])
}
