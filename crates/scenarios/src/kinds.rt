use crate::running::{MAKE, assert_ended, assert_runs, run_file, small_disk};
use ddt_entry::{Sha256Key, WeakKey};
use pool_model::{Kind, Outcome};
use session::Status;
use std::alloc::Global;
use std::process::Abort;
use std::test::Fail;

/// Command files that set a quota or a mode, and the report of each.
const SETTINGS: [(&str, &str); 6] = [
    // One key takes 256 bytes.
    (
        "quota 256\ngroup 1000\n0 write 1 61\n0 write 2 62\n0 write 3 61\nend\nstat\n",
        "quota 2 sealed\ngroup 3 sealed\n0 write 1 new\n0 write 2 quota\n0 write 3 hit\nstat 3\nquota 256\nkeys 1\nunique 0\nduplicate 1\nrefs 2\nloose 0\nplain 1\nallocated 1\nreferenced 2\nbucket 2 keys 1 allocated 1 referenced 2\n",
    ),
    (
        "quota 255\ngroup 1000\n0 write 1 61\nend\nstat\n",
        "quota 2 sealed\ngroup 3 sealed\n0 write 1 quota\nstat 3\nquota 255\nkeys 0\nunique 0\nduplicate 0\nrefs 0\nloose 0\nplain 1\nallocated 0\nreferenced 0\n",
    ),
    (
        "quota 255\nquota none\nimport\ngroup 1000\n0 write 1 61\nend\nstat\n",
        "quota 2 sealed\nquota 3 sealed\nimport 3\ngroup 4 sealed\n0 write 1 new\nstat 4\nquota none\nkeys 1\nunique 1\nduplicate 0\nrefs 1\nloose 0\nplain 0\nallocated 1\nreferenced 1\nbucket 1 keys 1 allocated 1 referenced 1\n",
    ),
    (
        "quota 18446744073709551615\nimport\ngroup 1000\n0 write 1 61\nend\nstat\n",
        "quota 2 sealed\nimport 2\ngroup 3 sealed\n0 write 1 new\nstat 3\nquota 18446744073709551615\nkeys 1\nunique 1\nduplicate 0\nrefs 1\nloose 0\nplain 0\nallocated 1\nreferenced 1\nbucket 1 keys 1 allocated 1 referenced 1\n",
    ),
    (
        "mode 0 off\ngroup 1000\n0 write 1 61\n0 write 2 61\nend\nmode 0 on\ngroup 1001\n0 write 3 61\n0 write 4 61\nend\nstat\n",
        "mode 2 sealed\ngroup 3 sealed\n0 write 1 off\n0 write 2 off\nmode 4 sealed\ngroup 5 sealed\n0 write 3 new\n0 write 4 hit\nstat 5\nquota none\nkeys 1\nunique 0\nduplicate 1\nrefs 2\nloose 0\nplain 2\nallocated 1\nreferenced 2\nbucket 2 keys 1 allocated 1 referenced 2\n",
    ),
    // Lane 0 keeps its mode where another lane's is set.
    (
        "mode 15 off\ngroup 1000\n0 write 1 61\nend\n",
        "mode 2 sealed\ngroup 3 sealed\n0 write 1 new\n",
    ),
];

/// Command files that prune, and the report of each.
const PRUNES: [(&str, &str); 6] = [
    // A day is 86,400 seconds, so that a home of moment 1000 is a day old at 87,400.
    (
        "group 1000\n0 write 1 61\nend\nprune 87399 age 1\nprune 87400 age 1\nstat\n",
        "group 2 sealed\n0 write 1 new\nprune 3 sealed 0\nprune 4 sealed 1\nstat 4\nquota none\nkeys 0\nunique 0\nduplicate 0\nrefs 0\nloose 1\nplain 0\nallocated 0\nreferenced 0\n",
    ),
    (
        "group 1000\n0 write 1 61\nend\nprune 2000 share 100\ngroup 3000\n0 write 2 61\nend\nimport\nstat\n",
        "group 2 sealed\n0 write 1 new\nprune 3 sealed 1\ngroup 4 sealed\n0 write 2 new\nimport 4\nstat 4\nquota none\nkeys 1\nunique 1\nduplicate 0\nrefs 1\nloose 1\nplain 0\nallocated 1\nreferenced 1\nbucket 1 keys 1 allocated 1 referenced 1\n",
    ),
    // Of three homes of one moment the half is one, and the key of 63 is the lowest.
    (
        "group 1000\n0 write 1 61\n0 write 2 62\n0 write 3 63\nend\nprune 2000 share 50\ngroup 3000\n0 write 4 61\n0 write 5 62\n0 write 6 63\nend\n",
        "group 2 sealed\n0 write 1 new\n0 write 2 new\n0 write 3 new\nprune 3 sealed 1\ngroup 4 sealed\n0 write 4 hit\n0 write 5 hit\n0 write 6 new\n",
    ),
    // 33 in a hundred are none of one and none of three, and 34 are one of three.
    (
        "group 1000\n0 write 1 61\nend\nprune 2000 share 0\nprune 2000 share 33\ngroup 2000\n0 write 2 62\n0 write 3 63\nend\nprune 2000 share 33\nprune 2000 share 34\n",
        "group 2 sealed\n0 write 1 new\nprune 3 sealed 0\nprune 4 sealed 0\ngroup 5 sealed\n0 write 2 new\n0 write 3 new\nprune 6 sealed 0\nprune 7 sealed 1\n",
    ),
    (
        "prune 0 age 0\nprune 0 share 100\nstat\n",
        "prune 2 sealed 0\nprune 3 sealed 0\nstat 3\nquota none\nkeys 0\nunique 0\nduplicate 0\nrefs 0\nloose 0\nplain 0\nallocated 0\nreferenced 0\n",
    ),
    // A home that two pointers count stays.
    (
        "group 1000\n0 write 1 61\n0 write 2 61\n0 write 3 62\nend\nprune 2000 share 100\nstat\n",
        "group 2 sealed\n0 write 1 new\n0 write 2 hit\n0 write 3 new\nprune 3 sealed 1\nstat 3\nquota none\nkeys 1\nunique 0\nduplicate 1\nrefs 2\nloose 1\nplain 0\nallocated 1\nreferenced 2\nbucket 2 keys 1 allocated 1 referenced 2\n",
    ),
];

/// Runs a command file over a new pool, and sees its report.
fn assert_reports(rt: &impl Abort, alloc: Global, file: &str, report: &str) -> Result<(), Fail> {
    let mut disk = small_disk(alloc)?;
    assert_runs(rt, alloc, MAKE, &mut disk, file, report)
}

#[test]
fn a_setting_is_in_force_from_the_next_group_on(rt: HostRuntime) -> Result<(), Fail> {
    for (file, report) in SETTINGS {
        assert_reports(&rt, rt.alloc(), file, report)?;
    }
    Ok(())
}

#[test]
fn a_prune_takes_old_homes_or_a_share_of_them(rt: HostRuntime) -> Result<(), Fail> {
    for (file, report) in PRUNES {
        assert_reports(&rt, rt.alloc(), file, report)?;
    }
    Ok(())
}

#[test]
fn a_verified_write_shares_no_other_bytes(rt: HostRuntime) -> Result<(), Fail> {
    let file = "mode 0 verify\ngroup 1000\n0 write 1 6161\n0 write 2 6162\nend\nstat\n";
    let report =
        "mode 2 sealed\ngroup 3 sealed\n0 write 1 new\n0 write 2 clash\nstat 3\nquota none\nkeys 1\nunique 1\nduplicate 0\nrefs 1\nloose 0\nplain 1\nallocated 2\nreferenced 2\nbucket 1 keys 1 allocated 2 referenced 2\n";
    let mut disk = small_disk(rt.alloc())?;
    let ended = run_file(rt.alloc(), &WeakKey, MAKE, &mut disk, file)?;
    assert_ended(&rt, &ended, Status::Done, report)
}

/// The kind, the outcome and the homes taken of a session's note.
fn noted(alloc: Global, file: &str, at: u64) -> Result<(Kind, Outcome, u64), Fail> {
    let mut disk = small_disk(alloc)?;
    let ended = run_file(alloc, &Sha256Key, MAKE, &mut disk, file)?;
    let note = ended
        .session
        .groups
        .get(at)
        .ok_or("the session notes its group")?;
    Ok((note.kind, note.outcome, note.taken))
}

#[test]
fn the_notes_tell_kinds_and_homes_taken(rt: HostRuntime) -> Result<(), Fail> {
    let file = "quota none\ngroup 1000\n0 write 1 61\n0 write 2 62\nend\nprune 2000 share 100\n";
    let set = noted(rt.alloc(), file, 0)?;
    assert!(rt; set == (Kind::Settings, Outcome::Sealed, 0));
    let pruned = noted(rt.alloc(), file, 2)?;
    assert!(rt; pruned == (Kind::Prune, Outcome::Sealed, 2));
    Ok(())
}
