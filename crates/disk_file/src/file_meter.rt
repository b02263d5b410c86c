ghost use Rattle.std.specs.Prelude.{◌≡◌, ◌≤◌, OnOk, OnErr};
ghost use Rattle.disk_model.specs.Faults.{one_more, HasCause};

use disk_model::{Failed, SECTOR_BYTES};
use std::fs::File;
use std::os::unix::fs::FileExt;

/// What reads of a disk in a file go through: an open of the file, and how many reads failed.
#[derive(Drop)]
pub struct FileMeter {
    file: File,
    failed: u64,
}

impl FileMeter {
    /// Reads go through this open of the file.
    pub(crate) fn new(file: File) -> FileMeter
        ensures { result.failed ≡ 0 }
    {
        FileMeter { file, failed: 0 }
    }

    /// How many reads failed.
    pub(crate) fn failed(&self) -> u64
        ensures { result ≡ self.now.failed }
    {
        self.failed
    }

    /// Reads the sector at this byte. A file that ends before the sector's end is a read that failed.
    pub(crate) fn read_at(
        &mut self,
        offset: u64,
        out: &mut [u8; SECTOR_BYTES],
    ) -> Result<(), Failed>
        ensures done { OnOk result (self.new.failed ≡ self.old.failed) }
        ensures counted { OnErr result (self.new.failed ≡ one_more self.old.failed) }
        ensures later { self.old.failed ≤ self.new.failed }
    {
        let Ok(()) = self.file.read_exact_at(out, offset) else {
            self.failed = self.failed.saturating_add(1);
            return Err(Failed);
        };
        Ok(())
    }
}
