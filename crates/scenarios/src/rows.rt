use crate::comparing::assert_same;
use crate::replay::report_of;
use ddt_entry::{KeyOf, Sha256Key, WeakKey};
use std::alloc::Global;
use std::process::Abort;
use std::test::Fail;

/// Command files, and what the plain program reports of each.
const ROWS: [(&str, &str); 12] = [
    (
        "group 1000 / 0 write 1 a / end / stat",
        " new / keys 1 unique 1 duplicate 0 refs 1 loose 0 plain 0 allocated 1 referenced 1 bucket 1 keys 1 allocated 1 referenced 1",
    ),
    (
        "group 1000 / 0 write 1 a / 0 write 2 a / end / stat",
        " new hit / keys 1 unique 0 duplicate 1 refs 2 loose 0 plain 0 allocated 1 referenced 2 bucket 2 keys 1 allocated 1 referenced 2",
    ),
    (
        "quota 256 / group 1000 / 0 write 1 a / 0 write 2 b / 0 write 3 a / end",
        " new quota hit",
    ),
    (
        "quota 255 / group 1000 / 0 write 1 a / 0 read 1 / end / stat",
        " quota bytes 61 / keys 0 unique 0 duplicate 0 refs 0 loose 0 plain 1 allocated 0 referenced 0",
    ),
    (
        "quota 256 / group 1000 / 0 write 1 a / end / group 1001 / 0 free 1 / 0 write 2 b / end",
        " new counted new",
    ),
    (
        "group 1000 / 0 write 1 a / end / prune 87399 age 1 / prune 87400 age 1 / stat",
        " new sealed 0 sealed 1 / keys 0 unique 0 duplicate 0 refs 0 loose 1 plain 0 allocated 0 referenced 0",
    ),
    (
        "group 1000 / 0 write 1 a / end / prune 2000 share 100 / group 3000 / 0 write 2 a / 0 free 1 / 0 read 2 / end / stat",
        " new sealed 1 new loose bytes 61 / keys 1 unique 1 duplicate 0 refs 1 loose 0 plain 0 allocated 1 referenced 1 bucket 1 keys 1 allocated 1 referenced 1",
    ),
    (
        "group 1000 / 0 write 1 a / 0 write 2 b / 0 write 3 c / end / prune 2000 share 50 / group 3000 / 0 free 1 / 0 free 2 / 0 free 3 / end",
        " new new new sealed 1 counted counted loose",
    ),
    (
        "group 1000 / 0 write 1 a / 1 write 1 a / 2 write 1 a / 3 write 1 a / 4 write 1 a / 5 write 1 a / 6 write 1 a / 7 write 1 a / end / stat",
        " new hit hit hit hit hit hit hit / keys 1 unique 0 duplicate 1 refs 8 loose 0 plain 0 allocated 1 referenced 8 bucket 8 keys 1 allocated 1 referenced 8",
    ),
    (
        "group 1000 / 0 write 1 a / 0 write 1 b / 0 free 1 / 0 free 1 / 0 read 1 / end",
        " new taken counted empty empty",
    ),
    (
        "group 2 / 0 write 1 a / end / group 3 / 0 free 1 / end / group 4 / end / group 5 / end / group 6 / end / group 7 / end / group 8 / end / group 9 / end / group 10 / 0 write 2 a / end / group 11 / 0 read 2 / end",
        " new counted new bytes 61",
    ),
    (
        "mode 0 off / group 1000 / 0 write 1 a / 0 free 1 / end",
        " off freed",
    ),
];

/// Sees what the plain program reports of a command file.
fn assert_reports<K: KeyOf>(
    rt: &impl Abort,
    alloc: Global,
    keyer: &K,
    file: &str,
    want: &str,
) -> Result<(), Fail> {
    let report = report_of(rt, alloc, keyer, file)?;
    assert_same(rt, file, report.as_str(), want);
    Ok(())
}

#[test]
fn commands_answer_as_the_worked_rows_say(rt: HostRuntime) -> Result<(), Fail> {
    for (file, want) in ROWS {
        assert_reports(&rt, rt.alloc(), &Sha256Key, file, want)?;
    }
    Ok(())
}

#[test]
fn verified_writes_share_only_equal_bytes(rt: HostRuntime) -> Result<(), Fail> {
    let file =
        "mode 0 verify / group 1000 / 0 write 1 aa / 0 write 2 ab / 0 read 1 / 0 read 2 / end / group 1001 / 0 free 1 / 0 write 3 ab / 0 read 3 / end / stat";
    let want =
        " new clash bytes 6161 bytes 6162 counted new bytes 6162 / keys 1 unique 1 duplicate 0 refs 1 loose 0 plain 1 allocated 2 referenced 2 bucket 1 keys 1 allocated 2 referenced 2";
    assert_reports(&rt, rt.alloc(), &WeakKey, file, want)
}
