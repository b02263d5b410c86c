use crate::bodies::read_back;
use crate::comparing::{assert_same, assert_same_at};
use disk_model::{Disk, Failed, MemDisk};
use std::alloc::Global;
use std::process::Abort;
use std::test::Fail;

/// Writes a sector of this byte, by the trait's contract alone.
fn write_byte<D: Disk>(rt: &impl Abort, disk: &mut D, at: u64, byte: u8) -> Result<(), Failed> {
    assert!(rt; at < disk.sectors());
    disk.write(at, &[byte; 4096])
}

/// The last byte of a sector, by the trait's contract alone.
fn byte_at<D: Disk>(
    rt: &impl Abort,
    disk: &D,
    meter: &mut D::Meter,
    at: u64,
) -> Result<u8, Failed> {
    assert!(rt; at < disk.sectors());
    let mut out = [0u8; 4096];
    disk.read(meter, at, &mut out)?;
    Ok(out[4095])
}

/// Writes sectors 3, 4 and 5, each of one of these bytes.
fn write_three(rt: &impl Abort, disk: &mut MemDisk, bytes: [u8; 3]) -> Result<(), Failed> {
    let [third, fourth, fifth] = bytes;
    write_byte(rt, disk, 3, third)?;
    write_byte(rt, disk, 4, fourth)?;
    write_byte(rt, disk, 5, fifth)
}

/// Writes them before a barrier and behind it.
fn write_twice(rt: &impl Abort, disk: &mut MemDisk) -> Result<(), Failed> {
    write_three(rt, disk, [1, 2, 3])?;
    disk.barrier()?;
    write_three(rt, disk, [11, 12, 13])
}

/// A disk of eight sectors, of which 3, 4 and 5 held 1, 2 and 3 at the last barrier and were then
/// written as 11, 12 and 13.
fn written_disk(rt: &impl Abort, alloc: Global) -> Result<MemDisk, Fail> {
    let mut disk = MemDisk::new(alloc, 8)?;
    write_twice(rt, &mut disk)?;
    Ok(disk)
}

/// The disk that a crash by this choice leaves.
fn crashed(rt: &impl Abort, disk: MemDisk, choice: u8) -> Result<MemDisk, Fail> {
    assert!(rt; choice <= 3);
    match disk.crash(choice) {
        Ok(left) => Ok(left),
        Err(_) => Err("no memory for the crash".into()),
    }
}

/// Sees which byte a sector has.
fn assert_byte(
    rt: &impl Abort,
    disk: &mut MemDisk,
    what: &str,
    at: u64,
    byte: u8,
) -> Result<(), Failed> {
    let sector = read_back(rt, disk, at)?;
    assert_same_at(rt, what, at, sector[4095], byte);
    Ok(())
}

/// Sees which bytes sectors 2 to 6 have.
fn assert_bytes(
    rt: &impl Abort,
    disk: &mut MemDisk,
    what: &str,
    bytes: [u8; 5],
) -> Result<(), Failed> {
    let [second, third, fourth, fifth, sixth] = bytes;
    assert_byte(rt, disk, what, 2, second)?;
    assert_byte(rt, disk, what, 3, third)?;
    assert_byte(rt, disk, what, 4, fourth)?;
    assert_byte(rt, disk, what, 5, fifth)?;
    assert_byte(rt, disk, what, 6, sixth)
}

/// The choices of a crash, and what each leaves of sectors 2 to 6.
const LEFT: [(&str, u8, [u8; 5]); 4] = [
    ("by choice 0 sector", 0, [0, 1, 2, 3, 0]),
    ("by choice 1 sector", 1, [0, 11, 12, 13, 0]),
    ("by choice 2 sector", 2, [0, 165, 165, 165, 0]),
    ("by choice 3 sector", 3, [0, 1, 12, 165, 0]),
];

/// Sees what a crash by this choice leaves.
fn assert_left(
    rt: &impl Abort,
    alloc: Global,
    what: &str,
    choice: u8,
    bytes: [u8; 5],
) -> Result<(), Fail> {
    let mut left = crashed(rt, written_disk(rt, alloc)?, choice)?;
    assert_same_at(
        rt,
        "the calls behind choice",
        choice as u64,
        left.calls_made(),
        0,
    );
    assert_same_at(
        rt,
        "the sectors behind choice",
        choice as u64,
        left.sectors(),
        8,
    );
    assert_bytes(rt, &mut left, what, bytes)?;
    Ok(())
}

#[test]
fn a_crash_leaves_each_pending_sector_by_its_choice(rt: HostRuntime) -> Result<(), Fail> {
    for (what, choice, bytes) in LEFT {
        assert_left(&rt, rt.alloc(), what, choice, bytes)?;
    }
    Ok(())
}

/// Sees what a second crash leaves behind one by this choice: nothing is pending on that disk, so it changes nothing.
fn assert_left_again(
    rt: &impl Abort,
    alloc: Global,
    what: &str,
    choice: u8,
    bytes: [u8; 5],
) -> Result<(), Fail> {
    let left = crashed(rt, written_disk(rt, alloc)?, choice)?;
    let mut again = crashed(rt, left, 2)?;
    assert_bytes(rt, &mut again, what, bytes)?;
    Ok(())
}

#[test]
fn a_second_crash_changes_nothing(rt: HostRuntime) -> Result<(), Fail> {
    for (what, choice, bytes) in LEFT {
        assert_left_again(&rt, rt.alloc(), what, choice, bytes)?;
    }
    Ok(())
}

/// Sees that a crash by this choice behind a barrier leaves what was written last.
fn assert_lasts(rt: &impl Abort, alloc: Global, what: &str, choice: u8) -> Result<(), Fail> {
    let mut disk = written_disk(rt, alloc)?;
    disk.barrier()?;
    let mut left = crashed(rt, disk, choice)?;
    assert_bytes(rt, &mut left, what, [0, 11, 12, 13, 0])?;
    Ok(())
}

#[test]
fn a_barrier_leaves_nothing_to_a_crash(rt: HostRuntime) -> Result<(), Fail> {
    for (what, choice, _) in LEFT {
        assert_lasts(&rt, rt.alloc(), what, choice)?;
    }
    Ok(())
}

/// Fails the eighth call, a write, and behind the ninth, a meter, the tenth, a barrier.
fn fail_single_calls(rt: &impl Abort, disk: &mut MemDisk) -> Result<(), Failed> {
    assert_same(rt, "the calls so far", disk.calls_made(), 7);
    disk.fail_call(8);
    let eighth = write_byte(rt, disk, 3, 99);
    assert_same(rt, "the eighth call", eighth, Err(Failed));
    assert_byte(rt, disk, "sector", 3, 11)?;
    disk.fail_call(10);
    assert_same(rt, "the tenth call", disk.barrier(), Err(Failed));
    Ok(())
}

/// Writes a sector by one call more, and sees that those behind it fail.
fn fail_behind_one<D: Disk>(rt: &impl Abort, disk: &mut D) -> Result<(), Failed> {
    write_byte(rt, disk, 3, 50)?;
    let write = write_byte(rt, disk, 3, 51);
    assert_same(rt, "the write", write, Err(Failed));
    assert_same(rt, "the barrier", disk.barrier(), Err(Failed));
    let meter = disk.meter();
    assert_same(rt, "whether there is no meter", meter.is_err(), true);
    Ok(())
}

/// Fails each call but the next, and sees what is read then through a meter that was there before.
fn fail_all_calls(rt: &impl Abort, disk: &mut MemDisk) -> Result<(), Failed> {
    let mut meter = disk.meter()?;
    let made = disk.calls_made();
    disk.fail_from(made.saturating_add(2));
    fail_behind_one(rt, disk)?;
    let byte = byte_at(rt, disk, &mut meter, 3)?;
    assert_same(rt, "what is read", byte, 50);
    assert_same(rt, "the calls without memory", disk.starved(), 0);
    Ok(())
}

#[test]
fn one_call_fails_where_it_is_told_to(rt: HostRuntime) -> Result<(), Fail> {
    let mut disk = written_disk(&rt, rt.alloc())?;
    fail_single_calls(&rt, &mut disk)?;
    Ok(())
}

#[test]
fn all_calls_fail_from_where_they_are_told_to(rt: HostRuntime) -> Result<(), Fail> {
    let mut disk = written_disk(&rt, rt.alloc())?;
    fail_all_calls(&rt, &mut disk)?;
    // No barrier succeeded since, so the first bytes may still come back.
    let mut left = crashed(&rt, disk, 0)?;
    assert_bytes(&rt, &mut left, "sector", [0, 1, 2, 3, 0])?;
    Ok(())
}

/// Reads a sector through two meters, of which the second fails in its second and third read.
fn read_twice<D: Disk>(
    rt: &impl Abort,
    disk: &D,
    first: &mut D::Meter,
    second: &mut D::Meter,
    read: u64,
    fails: bool,
) {
    let byte = byte_at(rt, disk, first, 4);
    assert_same_at(rt, "through the first meter read", read, byte, Ok(12));
    let answer = byte_at(rt, disk, second, 4).is_err();
    assert_same_at(
        rt,
        "whether it fails through the second meter, read",
        read,
        answer,
        fails,
    );
}

/// Sees so of four reads, and how many failed through each meter.
fn read_through_two<D: Disk>(rt: &impl Abort, disk: &mut D) -> Result<(), Failed> {
    let mut first = disk.meter()?;
    let mut second = disk.meter()?;
    for (read, fails) in [(1, false), (2, true), (3, true), (4, false)] {
        read_twice(rt, disk, &mut first, &mut second, read, fails);
    }
    assert_same(rt, "the faults of the first meter", D::faults(&first), 0);
    assert_same(rt, "the faults of the second meter", D::faults(&second), 2);
    disk.retire(first);
    disk.retire(second);
    Ok(())
}

#[test]
fn reads_of_one_meter_fail_where_they_are_told_to(rt: HostRuntime) -> Result<(), Fail> {
    let mut disk = written_disk(&rt, rt.alloc())?;
    disk.fail_reads(2, 2, 3);
    read_through_two(&rt, &mut disk)?;
    Ok(())
}
