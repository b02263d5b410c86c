ghost use Rattle.std.specs.Prelude.{◌≡◌, ◌<◌, []};

use crate::comparing::assert_same;
use ddt_entry::{KeyOf, Sha256Key};
use disk_model::MemDisk;
use io_model::{MemSink, MemSource};
use pool_model::{GroupNotes, Session};
use session::{Status, inspect, run};
use std::alloc::{AllocError, Global};
use std::process::Abort;
use std::test::Fail;

/// A session that ended, with its report.
#[derive(Drop)]
pub(crate) struct Ended {
    pub(crate) status: Status,
    pub(crate) session: Session,
    pub(crate) out: MemSink,
}

impl Ended {
    /// Whether the session did nothing and wrote nothing.
    pub(crate) fn did_nothing(&self) -> bool {
        self.session.groups.is_empty() && self.session.sealed == 0 && self.out.bytes().is_empty()
    }
}

/// The word that runs a command file over a new pool.
pub(crate) const MAKE: &str = "make";

/// The word that runs a command file over the pool on the disk.
pub(crate) const RUN: &str = "run";

/// A blank disk of the fewest sectors that a pool may have.
pub(crate) fn small_disk(alloc: Global) -> Result<MemDisk, AllocError> {
    MemDisk::new(alloc, 2_048)
}

/// A source of a text that gives at most `piece` bytes at a call, and whose calls of these numbers fail.
pub(crate) fn source_of(
    alloc: Global,
    text: &str,
    piece: usize,
    fails: &[u64],
) -> Result<MemSource, AllocError>
    requires { 0 < piece }
{
    let bytes = text.as_bytes().to_vec(alloc)?;
    Ok(MemSource::new(bytes, piece, fails.to_vec(alloc)?))
}

/// A sink whose calls of these numbers fail.
pub(crate) fn sink_of(alloc: Global, fails: &[u64]) -> Result<MemSink, AllocError> {
    Ok(MemSink::new(alloc, fails.to_vec(alloc)?))
}

/// Words as a session takes them.
fn owned(alloc: Global, words: &[&str]) -> Result<Vec<String>, AllocError> {
    let mut owned = Vec::new(alloc);
    for word in words {
        owned.push(String::from_str(alloc, word)?)?;
    }
    Ok(owned)
}

/// A session before it begins.
fn new_session(alloc: Global) -> Session
    ensures sealed { result.sealed ≡ 0 }
    ensures groups { result.groups.items ≡ [] }
{
    Session {
        groups: GroupNotes::new(alloc),
        sealed: 0,
    }
}

/// Runs a command file on these words, over this disk and these streams.
pub(crate) fn run_over<K: KeyOf>(
    alloc: Global,
    keyer: &K,
    words: &[&str],
    disk: &mut MemDisk,
    input: &mut MemSource,
    mut out: MemSink,
) -> Result<Ended, AllocError> {
    let words = owned(alloc, words)?;
    let mut session = new_session(alloc);
    let status = run(
        alloc,
        words.as_slice(),
        disk,
        input,
        &mut out,
        keyer,
        &mut session,
    );
    Ok(Ended {
        status,
        session,
        out,
    })
}

/// Runs a command file on one word over this disk, where no call of a stream fails.
pub(crate) fn run_file<K: KeyOf>(
    alloc: Global,
    keyer: &K,
    word: &str,
    disk: &mut MemDisk,
    text: &str,
) -> Result<Ended, AllocError> {
    let mut input = source_of(alloc, text, 7, &[])?;
    let out = sink_of(alloc, &[])?;
    run_over(alloc, keyer, &[word], disk, &mut input, out)
}

/// Looks at this disk on these words, and writes to this sink.
pub(crate) fn look_over(
    alloc: Global,
    words: &[&str],
    disk: &mut MemDisk,
    mut out: MemSink,
) -> Result<Ended, AllocError> {
    let words = owned(alloc, words)?;
    let status = inspect(alloc, words.as_slice(), disk, &mut out, &Sha256Key);
    Ok(Ended {
        status,
        session: new_session(alloc),
        out,
    })
}

/// Sees that a session ended so, with this report.
pub(crate) fn assert_ended(
    rt: &impl Abort,
    ended: &Ended,
    status: Status,
    report: &str,
) -> Result<(), Fail> {
    let told = str::from_utf8(ended.out.bytes())?;
    assert_same(rt, "the status", ended.status, status);
    assert_same(rt, "the report", told, report);
    Ok(())
}

/// Runs a command file on one word over this disk, and sees that it is done, with this report.
pub(crate) fn assert_runs(
    rt: &impl Abort,
    alloc: Global,
    word: &str,
    disk: &mut MemDisk,
    text: &str,
    report: &str,
) -> Result<(), Fail> {
    let ended = run_file(alloc, &Sha256Key, word, disk, text)?;
    assert_ended(rt, &ended, Status::Done, report)
}

/// Runs an empty command file on one word over this disk, and sees that it ends so, without a report.
pub(crate) fn assert_opens(
    rt: &impl Abort,
    alloc: Global,
    word: &str,
    disk: &mut MemDisk,
    status: Status,
) -> Result<(), Fail> {
    let ended = run_file(alloc, &Sha256Key, word, disk, "")?;
    assert_ended(rt, &ended, status, "")
}

/// Looks at this disk on one word, and sees how that ends, and with which report.
pub(crate) fn assert_tells(
    rt: &impl Abort,
    alloc: Global,
    word: &str,
    disk: &mut MemDisk,
    status: Status,
    report: &str,
) -> Result<(), Fail> {
    let out = sink_of(alloc, &[])?;
    let ended = look_over(alloc, &[word], disk, out)?;
    assert_ended(rt, &ended, status, report)
}
