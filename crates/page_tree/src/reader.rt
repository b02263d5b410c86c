ghost use Rattle.std.specs.Prelude.{◌≡◌, ◌≤◌, ◌<◌, ⊤, ℕ, Option, OnOk, IsErrOf, Some};
ghost use Rattle.sha2.specs.Sha256.{sha256};
ghost use Rattle.disk_model.specs.DiskLaws.{Gives};
ghost use Rattle.disk_model.specs.Faults.{Rose};
ghost use Rattle.page_tree.specs.Readers.{LacksDigest};
ghost use Rattle.page_tree.specs.declared.fault.FindFault.TheVariants.{ReadFault, Damaged};

use crate::fault::FindFault;
use crate::pointer::PagePtr;
use disk_model::Disk;
use sha2::{Digest, Sha256};
use std::marker::Send;

/// What the page of a pointer is read through.
pub trait PageReader<D: Disk>: Send + Drop {
    /// How many reads failed. It never falls, and stops at 2^64 - 1.
    ghost faults: { Self → ℕ };

    /// Whether the reader may be used at what the disk holds: whatever it kept of earlier reads still
    /// stands there.
    ghost fits: { Self → D → Type 0 };

    /// Reads the page of a pointer, and compares its digest. `Damaged` has the pointer's sector. Takes
    /// no memory that could be refused to the caller. After a fault the buffer may hold any bytes.
    fn page(&mut self, disk: &D, ptr: &PagePtr, out: &mut [u8; 4096]) -> Result<(), FindFault>
        requires fits { fits self.old disk.now }
        requires sector { ptr.now.sector < (D.state disk.now).sectors }
        ensures fits { fits self.new disk.now }
        ensures page { OnOk result (Gives (D.state disk.now).seen ptr.now.sector out.new) }
        ensures digest { OnOk result (sha256 out.new ≡ ptr.now.digest) }
        ensures damaged { (sector : ℕ) → IsErrOf result (Damaged sector) → LacksDigest (D.state disk.now).seen ptr.now sector }
        ensures count { faults self.old ≤ faults self.new }
        ensures cause { IsErrOf result ReadFault → Rose (faults self.old) (faults self.new) };
}

/// Reads each page anew, through a meter of the disk. It keeps nothing, and so fits every disk.
#[derive(Drop)]
pub struct PlainReader<D: Disk> {
    pub meter: D::Meter,
}

impl<D: Disk> PageReader<D> for PlainReader<D> {
    ghost faults = { λ reader. D.meter_faults reader.meter };

    ghost fits = { λ reader disk. ⊤ };

    fn page(&mut self, disk: &D, ptr: &PagePtr, out: &mut [u8; 4096]) -> Result<(), FindFault> {
        if disk.read(&mut self.meter, ptr.sector, out).is_err() {
            return Err(FindFault::ReadFault);
        }
        if Sha256::digest(out.as_slice()) != ptr.digest {
            return Err(FindFault::Damaged(ptr.sector));
        }
        Ok(())
    }
}

/// A reader for objects that are held in memory and have no page: each read fails, and is counted. It fits
/// every disk.
#[derive(Drop)]
pub struct NoPages {
    faults: u64,
}

impl NoPages {
    /// A reader that no read has failed through yet.
    pub fn new() -> NoPages {
        NoPages { faults: 0 }
    }
}

impl<D: Disk> PageReader<D> for NoPages {
    ghost faults = { λ reader. reader.faults };

    ghost fits = { λ reader disk. ⊤ };

    fn page(&mut self, disk: &D, ptr: &PagePtr, out: &mut [u8; 4096]) -> Result<(), FindFault> {
        self.faults = self.faults.saturating_add(1);
        Err(FindFault::ReadFault)
    }
}
