ghost use Rattle.std.specs.Prelude.{◌≡◌, ◌≤◌, ◌<◌, ◌+◌, ◌-◌, ◌^◌, ℕ, None, min, OnOk, OnErr, IfOk};
ghost use Rattle.disk_model.specs.Images.{Image};
ghost use Rattle.disk_model.specs.DiskLaws.{Torn, Stays, Holds, MayTouch, Gives, TellsImage, Follows, SameOutcomes, Elapses, IsDisk};
ghost use Rattle.disk_model.specs.Crashes.{DiskState, NothingPending};
ghost use Rattle.disk_model.specs.Accounts.{Keeps, Accounts};
ghost use Rattle.disk_model.specs.Faults.{HasCause};

use std::marker::{Send, Sync};

/// A call of the outside failed.
#[derive(Clone, Copy, Debug, PartialEq, Eq)]
pub struct Failed;

/// How many bytes a sector has.
pub const SECTOR_BYTES: usize = 4096;

/// What blocks and pages are kept on, by sectors of 4,096 bytes, numbered from 0.
pub trait Disk: Sync {
    /// What reads go through: each has a count of its own faults.
    type Meter: Send + Drop;

    /// What the disk is at this moment: its size, its contents, what a crash may leave, and its counts
    /// of faults. No call changes its size, and no count falls.
    ghost state: { Self → DiskState };

    /// How many reads through a meter failed. It never falls, and stops at 2^64 - 1.
    ghost meter_faults: { Self.Meter → ℕ };

    /// How many sectors there are.
    fn sectors(&self) -> u64
        ensures count { result ≡ (state self.now).sectors }
        ensures told { TellsImage result (state self.now).seen };

    /// A new meter, whose count is 0.
    fn meter(&mut self) -> Result<Self::Meter, Failed>
        ensures contents { Stays (state self.old).seen (state self.new).seen }
        ensures crash { SameOutcomes (state self.old).may_leave (state self.new).may_leave }
        ensures time { Elapses (state self.old) (state self.new) }
        ensures accounts { Accounts (state self.old) (state self.new) result }
        ensures fresh { IfOk result (λ meter. meter_faults meter ≡ 0) };

    /// How many reads through a meter failed.
    fn faults(meter: &Self::Meter) -> u64
        ensures { result ≡ meter_faults meter.now };

    /// Takes a meter back, and adds its count to the disk's. It can't fail.
    fn retire(&mut self, meter: Self::Meter)
        ensures contents { Stays (state self.old).seen (state self.new).seen }
        ensures crash { SameOutcomes (state self.old).may_leave (state self.new).may_leave }
        ensures time { Elapses (state self.old) (state self.new) }
        ensures keeps { Keeps (state self.old) (state self.new) }
        ensures reads { min ((state self.old).read_faults + meter_faults meter) (2 ^ 64 - 1) ≤ (state self.new).read_faults };

    /// Reads a sector. After a failure the buffer may hold any bytes.
    fn read(&self, meter: &mut Self::Meter, at: u64, out: &mut [u8; 4096]) -> Result<(), Failed>
        requires { at < (state self.now).sectors }
        ensures bytes { OnOk result (Gives (state self.now).seen at out.new) }
        ensures cause { HasCause (meter_faults meter.old) (meter_faults meter.new) result };

    /// Writes a sector. Until a barrier a crash may leave any bytes in it. A write that failed may have
    /// changed what the sector holds, and nothing else.
    fn write(&mut self, at: u64, from: &[u8; 4096]) -> Result<(), Failed>
        requires { at < (state self.old).sectors }
        ensures written { OnOk result (Holds (state self.old).seen (state self.new).seen at from.now) }
        ensures touched { OnErr result (MayTouch (state self.old).seen (state self.new).seen at) }
        ensures crash { Follows (Torn at) (state self.old).may_leave (state self.new).may_leave }
        ensures time { Elapses (state self.old) (state self.new) }
        ensures accounts { Accounts (state self.old) (state self.new) result };

    /// Makes all that was written so far last: after it a crash leaves what a read gives.
    fn barrier(&mut self) -> Result<(), Failed>
        ensures contents { Stays (state self.old).seen (state self.new).seen }
        ensures durable { OnOk result (NothingPending (state self.new).seen (state self.new).may_leave) }
        ensures crash { (c : Image) → (state self.new).may_leave c → (state self.old).may_leave c }
        ensures time { Elapses (state self.old) (state self.new) }
        ensures accounts { Accounts (state self.old) (state self.new) result };

    /// What it tells of crashes agrees, and a crash leaves so many whole sectors.
    ghost is_disk: { (disk : Self) → IsDisk (state disk) };

    /// All disks of a type tell their contents, or none does.
    ghost tells_alike: { (disk other : Self) → (state disk).seen ≡ None → (state other).seen ≡ None };
}

/// What a crash at this moment may leave, for whoever puts the moments of a run together. It does
/// nothing: its clauses are the trait's laws at this disk.
pub fn crash_laws<D: Disk>(disk: &D)
    ensures here { IsDisk (D.state disk.now) }
    ensures untold { (other : D) → (D.state disk.now).seen ≡ None → (D.state other).seen ≡ None }
{}
