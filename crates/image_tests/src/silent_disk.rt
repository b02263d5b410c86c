use disk_model::{Disk, Failed, MemDisk, MemMeter};
use std::alloc::{AllocError, Global};

/// A disk in memory that doesn't tell its contents, as a file doesn't.
#[derive(Drop)]
pub(crate) struct SilentDisk {
    pub(crate) inner: MemDisk,
}

/// A blank disk of the fewest sectors that a pool may have.
pub(crate) fn small_disk(alloc: Global) -> Result<SilentDisk, AllocError> {
    Ok(SilentDisk {
        inner: MemDisk::new(alloc, 2048)?,
    })
}

/// How many calls of a disk were made.
pub(crate) fn calls_of(disk: &SilentDisk) -> u64 {
    disk.inner.calls_made()
}

impl Disk for SilentDisk {
    type Meter = MemMeter;

    ghost use Rattle.image_tests.specs.Silent.{silent_state, silent_is_disk};

    ghost state = { λ disk. silent_state disk.inner };

    ghost meter_faults = { λ meter. meter.failed };

    ghost is_disk = { λ disk. silent_is_disk disk.inner };

    ghost tells_alike = { λ disk other untold. untold };

    fn sectors(&self) -> u64 {
        self.inner.sectors()
    }

    fn meter(&mut self) -> Result<MemMeter, Failed> {
        self.inner.meter()
    }

    fn faults(meter: &MemMeter) -> u64 {
        MemDisk::faults(meter)
    }

    fn retire(&mut self, meter: MemMeter) {
        self.inner.retire(meter);
    }

    fn read(&self, meter: &mut MemMeter, at: u64, out: &mut [u8; 4096]) -> Result<(), Failed> {
        self.inner.read(meter, at, out)
    }

    fn write(&mut self, at: u64, from: &[u8; 4096]) -> Result<(), Failed> {
        self.inner.write(at, from)
    }

    fn barrier(&mut self) -> Result<(), Failed> {
        self.inner.barrier()
    }
}
