use crate::{FileDisk, FileMeter, OpenFault};
use disk_model::{Disk, Failed};
use std::fmt::Debug;
use std::fs::{self, File, Files, OpenOptions};
use std::os::unix::fs::symlink;
use std::process::Abort;
use std::test::Fail;

/// Sees that a value, which is told by this name, is the one that is wanted. What a test compares goes through this
/// and the next: an assertion of its own is proved anew wherever it stands.
fn assert_same<T: PartialEq + Debug + Copy>(rt: &impl Abort, what: &str, found: T, wanted: T) {
    assert_eq!(rt; found, wanted, "{what}");
}

/// Sees so of the value with this number, of several of a name.
fn assert_same_at<T: PartialEq + Debug + Copy>(
    rt: &impl Abort,
    what: &str,
    number: u64,
    found: T,
    wanted: T,
) {
    assert_eq!(rt; found, wanted, "{what} {number}");
}

/// Writes a sector of this byte, by the trait's contract alone.
fn write_byte<D: Disk>(rt: &impl Abort, disk: &mut D, at: u64, byte: u8) -> Result<(), Failed> {
    assert!(rt; at < disk.sectors());
    disk.write(at, &[byte; 4096])
}

/// The first and the last byte of a sector, by the trait's contract alone.
fn bytes_at<D: Disk>(
    rt: &impl Abort,
    disk: &D,
    meter: &mut D::Meter,
    at: u64,
) -> Result<(u8, u8), Failed> {
    assert!(rt; at < disk.sectors());
    let mut out = [0u8; 4096];
    disk.read(meter, at, &mut out)?;
    Ok((out[0], out[4095]))
}

/// Sees that the first and the last byte of a sector are this one.
fn assert_byte<D: Disk>(rt: &impl Abort, disk: &D, meter: &mut D::Meter, at: u64, byte: u8) {
    let found = bytes_at(rt, disk, meter, at);
    assert_same_at(rt, "sector", at, found, Ok((byte, byte)));
}

/// Why this was no disk.
fn refusal(opened: Result<FileDisk, OpenFault>) -> Option<OpenFault> {
    match opened {
        Ok(_disk) => None,
        Err(fault) => Some(fault),
    }
}

/// Sees that a path is refused where a disk is to be made, of so many sectors.
fn assert_not_made<R: Files<File = File> + Abort>(rt: &R, path: &str, sectors: u64) {
    let refused = refusal(FileDisk::make(rt, path, sectors));
    assert_same(rt, path, refused, Some(OpenFault::Refused));
}

/// Sees that a path is refused where a disk is to be opened.
fn assert_not_opened<R: Files<File = File> + Abort>(rt: &R, path: &str) {
    let refused = refusal(FileDisk::at_path(rt, path));
    assert_same(rt, path, refused, Some(OpenFault::Refused));
}

/// Makes the length of a file so many bytes.
fn cut(rt: &impl Files<File = File>, path: &str, bytes: u64) -> Result<(), Fail> {
    let file = OpenOptions::new().write(true).open(rt, path)?;
    file.set_len(bytes)?;
    Ok(())
}

/// Writes three of eight sectors.
fn write_three<D: Disk>(rt: &impl Abort, disk: &mut D) -> Result<(), Failed> {
    assert_same(rt, "the sectors", disk.sectors(), 8);
    write_byte(rt, disk, 0, 1)?;
    write_byte(rt, disk, 3, 2)?;
    write_byte(rt, disk, 7, 3)?;
    disk.barrier()
}

/// What is read of sectors then.
const READ: [(u64, u8); 7] = [(0, 1), (1, 0), (2, 0), (3, 2), (4, 0), (6, 0), (7, 3)];

/// Sees that these three were written, and that each sector is read.
fn read_three<D: Disk>(rt: &impl Abort, disk: &mut D) -> Result<(), Failed> {
    assert_same(rt, "the sectors then", disk.sectors(), 8);
    let mut meter = disk.meter()?;
    for (at, byte) in READ {
        assert_byte(rt, disk, &mut meter, at, byte);
    }
    assert_same(rt, "the failed reads", D::faults(&meter), 0);
    disk.retire(meter);
    Ok(())
}

/// Makes a disk of eight sectors, and writes three of them.
fn make_three<R: Files<File = File> + Abort>(rt: &R, path: &str) -> Result<(), Fail> {
    let mut disk = FileDisk::make(rt, path, 8)?;
    write_three(rt, &mut disk)?;
    Ok(())
}

/// Opens a disk of eight sectors, and reads them.
fn open_three<R: Files<File = File> + Abort>(rt: &R, path: &str) -> Result<(), Fail> {
    let mut disk = FileDisk::at_path(rt, path)?;
    read_three(rt, &mut disk)?;
    Ok(())
}

#[test]
fn what_was_written_is_there_when_the_file_is_opened_again(rt: HostRuntime) -> Result<(), Fail> {
    let path = "disk_file written again";
    fs::remove_file(&rt, path).ok();
    make_three(&rt, path)?;
    let length = fs::metadata(&rt, path)?.len();
    assert_same(&rt, "the file's length", length, 32768);
    open_three(&rt, path)?;
    fs::remove_file(&rt, path)?;
    Ok(())
}

/// Makes a disk of three sectors, and writes the one in the middle.
fn make_middle<R: Files<File = File> + Abort>(rt: &R, path: &str) -> Result<(), Fail> {
    let mut disk = FileDisk::make(rt, path, 3)?;
    write_byte(rt, &mut disk, 1, 7)?;
    Ok(())
}

/// Bytes of the file that is made.
const PLACES: [(u64, u8); 6] = [
    (0, 0),
    (4095, 0),
    (4096, 7),
    (8191, 7),
    (8192, 0),
    (12287, 0),
];

/// Sees that they stand in these bytes.
fn assert_places(rt: &impl Abort, bytes: &[u8]) {
    assert_same(rt, "the length", bytes.len(), 12288);
    for (at, byte) in PLACES {
        let found = bytes.get(at as usize).copied();
        assert_same_at(rt, "byte", at, found, Some(byte));
    }
}

#[test]
fn a_sector_has_its_place_in_the_file(rt: HostRuntime) -> Result<(), Fail> {
    let path = "disk_file places";
    fs::remove_file(&rt, path).ok();
    make_middle(&rt, path)?;
    let bytes = fs::read(&rt, path)?;
    assert_places(&rt, bytes.as_slice());
    fs::remove_file(&rt, path)?;
    Ok(())
}

#[test]
fn a_path_that_is_there_is_not_made(rt: HostRuntime) -> Result<(), Fail> {
    let path = "disk_file there";
    fs::write(&rt, path, "kept")?;
    assert_not_made(&rt, path, 8);
    let kept = fs::read_to_string(&rt, path)?;
    assert_same(&rt, "the file", kept.as_str(), "kept");
    fs::remove_file(&rt, path)?;
    Ok(())
}

#[test]
fn a_link_to_nowhere_is_not_made(rt: HostRuntime) -> Result<(), Fail> {
    let link = "disk_file link to nowhere";
    fs::remove_file(&rt, link).ok();
    symlink(&rt, "disk_file nowhere", link)?;
    assert_not_made(&rt, link, 8);
    let is_there = fs::exists(&rt, "disk_file nowhere")?;
    assert_same(&rt, "whether it is there", is_there, false);
    fs::remove_file(&rt, link)?;
    Ok(())
}

#[test]
fn what_is_no_regular_file_is_refused(rt: HostRuntime) -> Result<(), Fail> {
    let folder = "disk_file folder";
    fs::create_dir(&rt, folder).ok();
    assert_not_opened(&rt, folder);
    assert_not_opened(&rt, "disk_file missing");
    assert_not_opened(&rt, "");
    assert_not_opened(&rt, "/dev/null");
    assert_not_opened(&rt, "disk_file missing/disk");
    assert_not_made(&rt, folder, 8);
    assert_not_made(&rt, "", 8);
    assert_not_made(&rt, "disk_file missing/disk", 8);
    assert_not_made(&rt, "disk_file folder/", 8);
    fs::remove_dir(&rt, folder)?;
    Ok(())
}

/// Sees that no file is left where a disk of so many sectors can't be made.
fn assert_too_long<R: Files<File = File> + Abort>(
    rt: &R,
    path: &str,
    sectors: u64,
) -> Result<(), Fail> {
    assert_not_made(rt, path, sectors);
    let is_there = fs::exists(rt, path)?;
    assert_same_at(
        rt,
        "whether it is there, of sectors",
        sectors,
        is_there,
        false,
    );
    Ok(())
}

#[test]
fn a_file_that_cannot_be_so_long_is_not_left_behind(rt: HostRuntime) -> Result<(), Fail> {
    let path = "disk_file too long";
    fs::remove_file(&rt, path).ok();
    assert_too_long(&rt, path, 1 << 51)?;
    assert_too_long(&rt, path, 1 << 52)?;
    assert_too_long(&rt, path, u64::MAX)
}

/// Sees how many sectors a file of so many bytes has.
fn assert_sectors<R: Files<File = File> + Abort>(
    rt: &R,
    path: &str,
    bytes: u64,
    sectors: u64,
) -> Result<(), Fail> {
    cut(rt, path, bytes)?;
    let disk = FileDisk::at_path(rt, path)?;
    assert_same_at(rt, "the sectors of bytes", bytes, disk.sectors(), sectors);
    Ok(())
}

#[test]
fn a_length_is_rounded_down(rt: HostRuntime) -> Result<(), Fail> {
    let path = "disk_file lengths";
    fs::write(&rt, path, "")?;
    for (bytes, sectors) in [(0, 0), (1, 0), (4095, 0), (4096, 1), (8191, 1), (8192, 2)] {
        assert_sectors(&rt, path, bytes, sectors)?;
    }
    fs::remove_file(&rt, path)?;
    Ok(())
}

/// Makes a disk, and sees that its file can't be opened while it stands.
fn make_and_hold<R: Files<File = File> + Abort>(
    rt: &R,
    path: &str,
    link: &str,
) -> Result<(), Fail> {
    let mut disk = FileDisk::make(rt, path, 8)?;
    symlink(rt, path, link)?;
    let meter = disk.meter()?;
    assert_not_opened(rt, path);
    assert_not_opened(rt, link);
    disk.retire(meter);
    assert_not_opened(rt, path);
    Ok(())
}

/// How many sectors the disk in a file has.
fn sectors_of(rt: &impl Files<File = File>, path: &str) -> Result<u64, OpenFault> {
    let disk = FileDisk::at_path(rt, path)?;
    Ok(disk.sectors())
}

#[test]
fn a_file_is_one_disk_at_a_time(rt: HostRuntime) -> Result<(), Fail> {
    let path = "disk_file locked";
    let link = "disk_file link to locked";
    fs::remove_file(&rt, path).ok();
    fs::remove_file(&rt, link).ok();
    make_and_hold(&rt, path, link)?;
    let sectors = sectors_of(&rt, link)?;
    assert_same(&rt, "the sectors then", sectors, 8);
    fs::remove_file(&rt, path)?;
    fs::remove_file(&rt, link)?;
    Ok(())
}

/// Reads this sector, which the file has no more, and is told so.
fn read_beyond<D: Disk>(rt: &impl Abort, disk: &D, meter: &mut D::Meter, at: u64, faults: u64) {
    let found = bytes_at(rt, disk, meter, at);
    assert_same_at(rt, "sector", at, found, Err(Failed));
    assert_same_at(
        rt,
        "the failed reads at sector",
        at,
        D::faults(meter),
        faults,
    );
}

/// Reads sectors of a file that holds five and a byte, of eight.
fn read_shrunk<D: Disk>(rt: &impl Abort, disk: &D, meter: &mut D::Meter) {
    read_beyond(rt, disk, meter, 7, 1);
    read_beyond(rt, disk, meter, 5, 2);
    assert_byte(rt, disk, meter, 4, 0);
    assert_same(rt, "the failed reads", D::faults(meter), 2);
}

/// Makes a disk of eight sectors, cuts its file behind a meter's back, and reads it.
fn make_and_cut<R: Files<File = File> + Abort>(rt: &R, path: &str) -> Result<(), Fail> {
    let mut disk = FileDisk::make(rt, path, 8)?;
    let mut meter = disk.meter()?;
    cut(rt, path, 4096 * 5 + 1)?;
    read_shrunk(rt, &disk, &mut meter);
    disk.retire(meter);
    Ok(())
}

#[test]
fn a_read_behind_the_end_of_a_file_that_shrank_fails(rt: HostRuntime) -> Result<(), Fail> {
    let path = "disk_file shrinks";
    fs::remove_file(&rt, path).ok();
    make_and_cut(&rt, path)?;
    fs::remove_file(&rt, path)?;
    Ok(())
}

/// Reads a sector of nines through a new meter, and ends with a barrier.
fn read_nines(rt: &impl Abort, disk: &mut FileDisk) -> Result<(), Failed> {
    let mut meter: FileMeter = disk.meter()?;
    assert_byte(rt, disk, &mut meter, 2, 9);
    disk.retire(meter);
    disk.barrier()
}

/// Makes a disk, puts another file in the place of its own, and reads it.
fn make_and_move<R: Files<File = File> + Abort>(rt: &R, path: &str) -> Result<(), Fail> {
    let mut disk = FileDisk::make(rt, path, 8)?;
    write_byte(rt, &mut disk, 2, 9)?;
    fs::remove_file(rt, path)?;
    fs::write(rt, path, "another file")?;
    read_nines(rt, &mut disk)?;
    Ok(())
}

#[test]
fn a_meter_reads_the_file_that_was_opened(rt: HostRuntime) -> Result<(), Fail> {
    let path = "disk_file moved";
    fs::remove_file(&rt, path).ok();
    make_and_move(&rt, path)?;
    fs::remove_file(&rt, path)?;
    Ok(())
}
