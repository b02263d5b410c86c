use crate::comparing::assert_same;
use ddt_entry::Key;
use pool_model::{BUCKETS, Bucket, Stats};
use pool_stats::{Reference, Standing, stats};
use std::alloc::Global;
use std::process::Abort;
use std::test::Fail;

/// A pointer of this standing whose key has this length, and a digest that begins with this byte.
fn reference(standing: Standing, first: u8, len: u32) -> Reference {
    let mut digest = [0; 32];
    digest[0] = first;
    Reference {
        key: Key { digest, len },
        standing,
    }
}

fn tracked(first: u8, len: u32) -> Reference {
    reference(Standing::Tracked, first, len)
}

fn loose(first: u8, len: u32) -> Reference {
    reference(Standing::Loose, first, len)
}

fn plain(first: u8, len: u32) -> Reference {
    reference(Standing::Plain, first, len)
}

/// The statistics of a few pointers with short keys.
fn counted(rt: &impl Abort, alloc: Global, references: &[Reference]) -> Result<Stats, Fail> {
    assert!(rt; references.len() <= 1 << 20);
    assert!(rt; references.iter().all(|reference| reference.key.len <= 4096));
    Ok(stats(alloc, references)?)
}

/// Keys, unique and duplicate ones; tracked, loose and plain pointers; bytes once, and once for each pointer.
fn numbers(stats: &Stats) -> [u64; 8] {
    [
        stats.keys,
        stats.unique,
        stats.duplicate,
        stats.refs,
        stats.loose,
        stats.plain,
        stats.allocated,
        stats.referenced,
    ]
}

/// Buckets without keys, but for the first three: keys, bytes once, and once for each pointer.
fn buckets(some: [[u64; 3]; 3]) -> [Bucket; BUCKETS] {
    let mut buckets = [Bucket {
        low: 0,
        keys: 0,
        allocated: 0,
        referenced: 0,
    }; BUCKETS];
    'lows: for b in 0..BUCKETS {
        buckets[b].low = 1u64 << (b as u32 % 64);
    }
    'some: for b in 0..3usize {
        buckets[b].keys = some[b][0];
        buckets[b].allocated = some[b][1];
        buckets[b].referenced = some[b][2];
    }
    buckets
}

/// Sees the statistics of these pointers.
fn assert_counted(
    rt: &impl Abort,
    alloc: Global,
    what: &str,
    references: &[Reference],
    totals: [u64; 8],
    some: [[u64; 3]; 3],
) -> Result<(), Fail> {
    let stats = counted(rt, alloc, references)?;
    assert_same(rt, what, numbers(&stats), totals);
    assert_same(rt, what, stats.buckets, buckets(some));
    Ok(())
}

/// No key in a bucket.
const NONE: [u64; 3] = [0; 3];

#[test]
fn pointers_that_are_not_tracked_have_no_key(rt: HostRuntime) -> Result<(), Fail> {
    let alloc = rt.alloc();
    let none = [NONE; 3];
    assert_counted(&rt, alloc, "of no pointer", &[], [0; 8], none)?;
    let uncounted = [plain(7, 10), loose(7, 10), loose(8, 3)];
    let totals = [0, 0, 0, 0, 2, 1, 0, 0];
    assert_counted(
        &rt,
        alloc,
        "of loose and plain ones",
        &uncounted,
        totals,
        none,
    )
}

#[test]
fn pointers_of_one_key_are_counted_together(rt: HostRuntime) -> Result<(), Fail> {
    let alloc = rt.alloc();
    let one = [tracked(7, 10)];
    let totals = [1, 1, 0, 1, 0, 0, 10, 10];
    let some = [[1, 10, 10], NONE, NONE];
    assert_counted(&rt, alloc, "of one", &one, totals, some)?;
    let shared = [tracked(7, 4096), tracked(7, 4096)];
    let totals = [1, 0, 1, 2, 0, 0, 4096, 8192];
    let some = [NONE, [1, 4096, 8192], NONE];
    assert_counted(&rt, alloc, "of two with one key", &shared, totals, some)?;
    let same_digest = [tracked(7, 11), tracked(7, 10)];
    let totals = [2, 2, 0, 2, 0, 0, 21, 21];
    let some = [[2, 21, 21], NONE, NONE];
    assert_counted(
        &rt,
        alloc,
        "of two with one digest",
        &same_digest,
        totals,
        some,
    )
}

/// Pointers of each standing, of one key with five, one with two and one with one that are tracked.
fn mixed() -> [Reference; 11] {
    [
        tracked(3, 4096),
        tracked(2, 10),
        loose(2, 10),
        tracked(3, 4096),
        plain(3, 4096),
        tracked(1, 100),
        tracked(3, 4096),
        tracked(3, 4096),
        tracked(2, 10),
        loose(9, 50),
        tracked(3, 4096),
    ]
}

#[test]
fn each_number_is_of_the_pointers_that_it_counts(rt: HostRuntime) -> Result<(), Fail> {
    let totals = [3, 1, 2, 8, 2, 1, 4206, 20600];
    let some = [[1, 100, 100], [1, 10, 20], [1, 4096, 20480]];
    assert_counted(&rt, rt.alloc(), "of all kinds", &mixed(), totals, some)
}
