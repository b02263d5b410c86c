//! How many pages the logs of the table take: each change that was appended to a log counts until the log is
//! emptied, also where its key was changed again, or where it was flushed. A group without room tells of it.

use crate::running::{MAKE, assert_runs};
use disk_model::MemDisk;
use std::alloc::{AllocError, Global};
use std::process::Abort;
use std::test::Fail;

/// A group that writes this many blocks of two bytes, the numbers from `content` on, to the slots from `first` on.
pub(crate) fn push_group(
    alloc: Global,
    text: &mut String,
    first: u32,
    content: u32,
    count: u32,
) -> Result<(), AllocError> {
    text.push_str("group 1000\n")?;
    for number in 0..count {
        let slot = first.wrapping_add(number);
        let content = content.wrapping_add(number);
        let line = format!(in alloc; "0 write {slot} {content:04x}\n")?;
        text.push_str(line.as_str())?;
    }
    text.push_str("end\n")?;
    Ok(())
}

/// The text of such a group that was sealed, each of whose writes answered this.
fn push_sealed(
    alloc: Global,
    text: &mut String,
    group: u32,
    first: u32,
    count: u32,
    answer: &str,
) -> Result<(), AllocError> {
    let line = format!(in alloc; "group {group} sealed\n")?;
    text.push_str(line.as_str())?;
    for number in 0..count {
        let slot = first.wrapping_add(number);
        let line = format!(in alloc; "0 write {slot} {answer}\n")?;
        text.push_str(line.as_str())?;
    }
    Ok(())
}

/// Fifty blocks, the same fifty once more, and sixty writes for which there is no room.
fn file_of_shared_blocks(alloc: Global) -> Result<String, AllocError> {
    let mut file = String::new(alloc);
    push_group(alloc, &mut file, 0, 0, 50)?;
    push_group(alloc, &mut file, 100, 0, 50)?;
    push_group(alloc, &mut file, 200, 0, 60)?;
    Ok(file)
}

/// After two groups of 50 changes each the slots take two pages, and so does the active log, in which each
/// key stands twice: 4 pages. So 2048 - 32 - 4 - 50 = 1962 sectors are free, and 60 writes need
/// 60 + 2 * (4 + 6 * 60 + 392) + 398 = 1970.
fn report_of_shared_blocks(alloc: Global) -> Result<String, AllocError> {
    let mut report = String::new(alloc);
    push_sealed(alloc, &mut report, 2, 0, 50, "new")?;
    push_sealed(alloc, &mut report, 3, 100, 50, "hit")?;
    report.push_str("group 4 nospace 1970 1962\n")?;
    Ok(report)
}

#[test]
fn a_key_that_is_changed_twice_counts_twice_in_its_log(rt: HostRuntime) -> Result<(), Fail> {
    let file = file_of_shared_blocks(rt.alloc())?;
    let report = report_of_shared_blocks(rt.alloc())?;
    let mut disk = MemDisk::new(rt.alloc(), 2_048)?;
    assert_runs(
        &rt,
        rt.alloc(),
        MAKE,
        &mut disk,
        file.as_str(),
        report.as_str(),
    )
}

/// A thousand blocks in the first group of a pool.
pub(crate) fn file_of_a_thousand(alloc: Global) -> Result<String, AllocError> {
    let mut file = String::new(alloc);
    push_group(alloc, &mut file, 0, 0, 1_000)?;
    Ok(file)
}

/// Runs it over a new pool of so many sectors.
fn run_a_thousand(rt: &impl Abort, alloc: Global, sectors: u64, report: &str) -> Result<(), Fail> {
    let file = file_of_a_thousand(alloc)?;
    let mut disk = MemDisk::new(alloc, sectors)?;
    assert_runs(rt, alloc, MAKE, &mut disk, file.as_str(), report)
}

/// A new pool has no pages, and with nothing to flush the limit is 64: a thousand writes need
/// 1000 + 2 * (6 * 1000 + 392) + 398 = 14182. All sectors but the ring's 32 are free.
#[test]
fn a_thousand_writes_lack_one_sector(rt: HostRuntime) -> Result<(), Fail> {
    let report = "group 2 nospace 14182 14181\n";
    run_a_thousand(&rt, rt.alloc(), 14_213, report)
}

#[test]
fn a_thousand_writes_have_just_room_enough(rt: HostRuntime) -> Result<(), Fail> {
    let mut report = String::new(rt.alloc());
    push_sealed(rt.alloc(), &mut report, 2, 0, 1_000, "new")?;
    run_a_thousand(&rt, rt.alloc(), 14_214, report.as_str())
}

/// Two hundred blocks, eight groups without commands, and 511 writes for which there is no room.
fn file_of_a_flush(alloc: Global) -> Result<String, AllocError> {
    let mut file = String::new(alloc);
    push_group(alloc, &mut file, 0, 0, 200)?;
    for _ in 0..8 {
        file.push_str("group 1000\nend\n")?;
    }
    push_group(alloc, &mut file, 1_000, 0, 511)?;
    Ok(file)
}

/// The logs swap in group 9, and group 10 flushes 64 + 200 / 8 = 89 changes. The slots then take 4 pages, the 89
/// stored homes 2, and the flushing log, which is kept whole, 4. So 8192 - 32 - 10 - 200 = 7950 sectors are
/// free. 111 changes are left, of which a sync flushes 64 + 111 / 8 = 77, so 511 writes need
/// 511 + 2 * (10 + 6 * 511 + 431) + 437 = 7962.
fn report_of_a_flush(alloc: Global) -> Result<String, AllocError> {
    let mut report = String::new(alloc);
    push_sealed(alloc, &mut report, 2, 0, 200, "new")?;
    for group in 3..11 {
        push_sealed(alloc, &mut report, group, 0, 0, "new")?;
    }
    report.push_str("group 11 nospace 7962 7950\n")?;
    Ok(report)
}

#[test]
fn a_log_is_kept_whole_while_it_is_flushed(rt: HostRuntime) -> Result<(), Fail> {
    let file = file_of_a_flush(rt.alloc())?;
    let report = report_of_a_flush(rt.alloc())?;
    let mut disk = MemDisk::new(rt.alloc(), 8_192)?;
    assert_runs(
        &rt,
        rt.alloc(),
        MAKE,
        &mut disk,
        file.as_str(),
        report.as_str(),
    )
}
