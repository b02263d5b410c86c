ghost use Rattle.std.specs.Prelude.{◌≡◌, ◌≤◌, ◌<◌, Some, OnOk, IsErrOf};
ghost use Rattle.disk_model.specs.Images.{Image};
ghost use Rattle.disk_model.specs.DiskLaws.{Stays};
ghost use Rattle.disk_model.specs.Crashes.{LeavesOnly, NothingPending};
ghost use Rattle.txg_sync.specs.SyncFaults.{SealAccounts};
ghost use Rattle.txg_sync.specs.Stages.{MayTake, TakingLeaves, Takes};
ghost use Rattle.txg_sync.specs.declared.fault.SealFault.TheVariants.{ReadFault, WriteFault, GateFault};

use crate::fault::SealFault;
use disk_model::{Disk, crash_laws};
use uber_ring::{close_slot, gate_open};

/// Takes a slot of the ring for a new seal: reads its gate, closes it where it reads open, and makes a
/// barrier. It never answers `GateFault`, since this gate is closed. Takes no memory.
pub fn take_slot<D: Disk>(disk: &mut D, slot: u32) -> Result<(), SealFault>
    requires ring { 32 ≤ (D.state disk.old).sectors }
    requires slot { slot < 16 }
    ensures taken { OnOk result (Takes slot (D.state disk.old).seen (D.state disk.new).seen) }
    ensures durable { OnOk result (NothingPending (D.state disk.new).seen (D.state disk.new).may_leave) }
    ensures any_moment { (image : Image) → (D.state disk.old).seen ≡ Some image → NothingPending (Some image) (D.state disk.old).may_leave
        → LeavesOnly (D.state disk.old) (D.state disk.new) (TakingLeaves slot image) }
    ensures untaken { IsErrOf result WriteFault → MayTake slot (D.state disk.old).seen (D.state disk.new).seen }
    ensures unread { IsErrOf result ReadFault → Stays (D.state disk.old).seen (D.state disk.new).seen }
    ensures unread_crash { IsErrOf result ReadFault → (c : Image) → (D.state disk.new).may_leave c → (D.state disk.old).may_leave c }
    ensures ungated { IsErrOf result GateFault → ⊥ }
    ensures accounts { SealAccounts (D.state disk.old) (D.state disk.new) result }
{
    crash_laws(disk);
    let _sectors = disk.sectors();
    let Ok(mut meter) = disk.meter() else {
        return Err(SealFault::WriteFault);
    };
    let answer = gate_open(disk, &mut meter, slot);
    disk.retire(meter);
    let Ok(was_open) = answer else {
        return Err(SealFault::ReadFault);
    };
    let Ok(()) = close_slot(disk, slot, was_open) else {
        return Err(SealFault::WriteFault);
    };
    Ok(())
}
