//! What a disk is, and what a crash may leave of it.
//!
//! A disk has sectors of 4,096 bytes. Between two barriers that succeeded, each sector that was written
//! may hold any bytes after a crash, and the others stay; after a barrier a crash leaves what a read
//! gives. A contract over a disk is to speak of every moment, also of those inside a call. So a disk
//! has a clock, and tells what a crash now may leave and what a crash at some moment since an earlier
//! time might have left (`specs/Crashes.antt`). It need not tell its contents: over a real file nothing
//! is known of them, and every clause on contents then says nothing.
//!
//! Each object has a count of faults that never falls, and a call answers `Failed` only where that
//! count rose, so that a body above cannot make a fault up. Reads go through meters, of which each lane
//! has its own, so that many lanes read one unchanging disk.
//!
//! `MemDisk` is a disk in memory. It keeps what it held when it was made and a record of its calls, and
//! so tells all of this of itself; it fails where it is told to, and can be crashed. `proofs/Moments.antt`
//! has the laws by which a crate above puts the moments of its calls together.
#![tactic(auto)]

mod call;
mod crash;
mod disk;
mod fault_plan;
mod mem_disk;
mod mem_meter;

pub use call::{Call, SectorWrite};
pub use disk::{Disk, Failed, SECTOR_BYTES, crash_laws};
pub use fault_plan::{FaultPlan, ReadSpan};
pub use mem_disk::MemDisk;
pub use mem_meter::MemMeter;
