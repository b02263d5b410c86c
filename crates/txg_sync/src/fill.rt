ghost use Rattle.std.specs.Prelude.{◌≤◌, OnOk, OnErr};
ghost use Rattle.disk_model.specs.DiskLaws.{Holds, MayTouch};
ghost use Rattle.disk_model.specs.Crashes.{LeavesOnly, NothingPending};
ghost use Rattle.disk_model.specs.Accounts.{Accounts};
ghost use Rattle.uber_ring.specs.Spelling.{body_bytes};
ghost use Rattle.uber_ring.specs.Ring.{body_sector};
ghost use Rattle.uber_ring.specs.RingWrites.{slot_of, WritingLeaves};

use disk_model::{Disk, Failed, crash_laws};
use uber_ring::{Seal, seal_fits, write_body};

/// Writes the body of a seal into its group's slot, and makes a barrier. Takes no memory.
pub fn fill_slot<D: Disk>(disk: &mut D, seal: &Seal) -> Result<(), Failed>
    requires ring { 32 ≤ (D.state disk.old).sectors }
    ensures filled { OnOk result (Holds (D.state disk.old).seen (D.state disk.new).seen
        (body_sector (slot_of seal.now.group)) (body_bytes seal.now)) }
    ensures touched { OnErr result (MayTouch (D.state disk.old).seen (D.state disk.new).seen (body_sector (slot_of seal.now.group))) }
    ensures durable { OnOk result (NothingPending (D.state disk.new).seen (D.state disk.new).may_leave) }
    ensures any_moment { LeavesOnly (D.state disk.old) (D.state disk.new)
        (WritingLeaves (slot_of seal.now.group) (D.state disk.old).may_leave) }
    ensures accounts { Accounts (D.state disk.old) (D.state disk.new) result }
{
    seal_fits(*seal);
    write_body(disk, seal)?;
    crash_laws(disk);
    disk.barrier()
}
