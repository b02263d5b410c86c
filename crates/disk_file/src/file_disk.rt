ghost use Rattle.std.specs.Prelude.{◌≡◌, ◌≤◌, ◌<◌, ◌+◌, ◌-◌, ◌*◌, ◌^◌, ℕ, None, min, OnOk, OnErr, IfOk};
ghost use Rattle.disk_model.specs.Images.{Image};
ghost use Rattle.disk_model.specs.DiskLaws.{IsImage, Torn, Stays, Holds, MayTouch, Gives, TellsImage};
ghost use Rattle.disk_model.specs.Crashes.{NothingPending};
ghost use Rattle.disk_model.specs.DiskLaws.{Follows, SameOutcomes, Elapses};
ghost use Rattle.disk_model.specs.Accounts.{Keeps, Accounts};
ghost use Rattle.disk_model.specs.Faults.{HasCause, one_more};
ghost use Rattle.disk_file.specs.Untold.{Counts, untold, new_counts, faulted, IsCounted};
ghost use Rattle.disk_file.specs.UntoldLaws.{is_disk, never_told};

use crate::file_meter::FileMeter;
use crate::opening::{OpenFault, make_locked, open_locked, whole_sectors};
use disk_model::{Disk, Failed, SECTOR_BYTES};
use std::fs::{File, Files};
use std::marker::Model;
use std::os::unix::fs::FileExt;

/// How many bytes a sector has, as a length of a file.
const SECTOR: u64 = SECTOR_BYTES as u64;

/// How many sectors a file has at the most: its length is a number of 64 bits.
const MOST_SECTORS: u64 = u64::MAX / SECTOR;

/// A disk in a regular file, which no other program can open as a disk meanwhile. Sector n is the file's bytes from
/// 4,096 n on.
#[derive(Drop)]
pub struct FileDisk {
    /// What writes and barriers go through. It has the file's lock.
    file: File,
    sectors: u64,
    write_faults: u64,
    read_faults: u64,
}

impl Model for FileDisk {
    ghost use Rattle.std.specs.Prelude.{◌≤◌, ◌^◌};
    ghost use Rattle.disk_file.specs.Untold.{Counts};

    ghost Value = { Counts };

    ghost view = { λ disk. record {
      sectors = disk.sectors;
      write_faults = disk.write_faults;
      read_faults = disk.read_faults;
    } };

    ghost invariant = { λ disk. disk.sectors ≤ 2 ^ 52 };
}

impl FileDisk {
    /// The disk in the file at this path, which is there: its length divided by 4,096, rounded down, is its
    /// number of sectors.
    pub fn at_path<R: Files<File = File>>(files: &R, path: &str) -> Result<FileDisk, OpenFault>
        ensures fresh { IfOk result (λ disk. disk ≡ new_counts disk.sectors) }
    {
        let file = open_locked(files, path)?;
        let sectors = whole_sectors(&file.metadata()?)?;
        Ok(FileDisk::new(file, sectors))
    }

    /// A disk of so many sectors of zeros in a new file. A path that is there is refused, and stays as it is. Where the
    /// file can't be made so long none is left behind.
    pub fn make<R: Files<File = File>>(
        files: &R,
        path: &str,
        sectors: u64,
    ) -> Result<FileDisk, OpenFault>
        ensures made { IfOk result (λ disk. disk ≡ new_counts sectors) }
    {
        if MOST_SECTORS < sectors {
            return Err(OpenFault::Refused);
        }
        let file = make_locked(files, path, sectors * SECTOR)?;
        Ok(FileDisk::new(file, sectors))
    }

    /// A disk of so many sectors in this open file, of which no call has failed yet.
    fn new(file: File, sectors: u64) -> FileDisk
        requires { sectors ≤ 2 ^ 52 }
        ensures { result ≡ new_counts sectors }
    {
        FileDisk {
            file,
            sectors,
            write_faults: 0,
            read_faults: 0,
        }
    }

    /// Where a sector begins in the file, in bytes.
    fn place(&self, at: u64) -> u64
        requires { at < self.now.sectors }
        ensures { result ≡ at * 4096 }
    {
        // The number of sectors is what bounds the product.
        let _bound = self.sectors;
        at * SECTOR
    }

    /// Counts a call of `meter`, `write` or `barrier` that failed.
    fn fault(&mut self) -> Failed
        ensures counted { self.new ≡ faulted self.old }
        ensures later { self.old.write_faults ≤ self.new.write_faults }
    {
        self.write_faults = self.write_faults.saturating_add(1);
        Failed
    }
}

impl Disk for FileDisk {
    type Meter = FileMeter;

    ghost state = { λ disk. untold disk };

    ghost meter_faults = { λ meter. meter.failed };

    ghost is_disk = { λ disk. is_disk disk };

    ghost tells_alike = { λ disk other untold. never_told disk other untold };

    fn sectors(&self) -> u64 {
        self.sectors
    }

    fn meter(&mut self) -> Result<FileMeter, Failed>
        ensures contents { Stays (untold self.old).seen (untold self.new).seen }
        ensures crash { SameOutcomes (untold self.old).may_leave (untold self.new).may_leave }
        ensures time { Elapses (untold self.old) (untold self.new) }
        ensures accounts { Accounts (untold self.old) (untold self.new) result }
        ensures fresh { IfOk result (λ meter. meter.failed ≡ 0) }

        ensures exact { IsCounted self.old self.new result }
    {
        let Ok(file) = self.file.try_clone() else {
            return Err(self.fault());
        };
        Ok(FileMeter::new(file))
    }

    fn faults(meter: &FileMeter) -> u64 {
        meter.failed()
    }

    fn retire(&mut self, meter: FileMeter)
        ensures contents { Stays (untold self.old).seen (untold self.new).seen }
        ensures crash { SameOutcomes (untold self.old).may_leave (untold self.new).may_leave }
        ensures time { Elapses (untold self.old) (untold self.new) }
        ensures keeps { Keeps (untold self.old) (untold self.new) }
        ensures reads { min (self.old.read_faults + meter.failed) (2 ^ 64 - 1) ≤ self.new.read_faults }

        ensures exact { self.new ≡ record self.old { read_faults = min (self.old.read_faults + meter.failed) (2 ^ 64 - 1) } }
    {
        self.read_faults = self.read_faults.saturating_add(meter.failed());
    }

    fn read(&self, meter: &mut FileMeter, at: u64, out: &mut [u8; 4096]) -> Result<(), Failed>
        requires { at < self.now.sectors }
        ensures bytes { OnOk result (Gives (untold self.now).seen at out.new) }
        ensures cause { HasCause meter.old.failed meter.new.failed result }

        ensures ok { OnOk result (meter.new.failed ≡ meter.old.failed) }
        ensures err { OnErr result (meter.new.failed ≡ one_more meter.old.failed) }
    {
        meter.read_at(self.place(at), out)
    }

    fn write(&mut self, at: u64, from: &[u8; 4096]) -> Result<(), Failed>
        requires { at < self.old.sectors }
        ensures written { OnOk result (Holds (untold self.old).seen (untold self.new).seen at from.now) }
        ensures touched { OnErr result (MayTouch (untold self.old).seen (untold self.new).seen at) }
        ensures crash { Follows (Torn at) (untold self.old).may_leave (untold self.new).may_leave }
        ensures time { Elapses (untold self.old) (untold self.new) }
        ensures accounts { Accounts (untold self.old) (untold self.new) result }

        ensures exact { IsCounted self.old self.new result }
    {
        let Ok(()) = self.file.write_all_at(from, self.place(at)) else {
            return Err(self.fault());
        };
        Ok(())
    }

    fn barrier(&mut self) -> Result<(), Failed>
        ensures contents { Stays (untold self.old).seen (untold self.new).seen }
        ensures durable { OnOk result (NothingPending (untold self.new).seen (untold self.new).may_leave) }
        ensures crash { (c : Image) → (untold self.new).may_leave c → (untold self.old).may_leave c }
        ensures time { Elapses (untold self.old) (untold self.new) }
        ensures accounts { Accounts (untold self.old) (untold self.new) result }

        ensures exact { IsCounted self.old self.new result }
    {
        let Ok(()) = self.file.sync_data() else {
            return Err(self.fault());
        };
        Ok(())
    }
}
