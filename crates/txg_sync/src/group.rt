ghost use Rattle.std.specs.Prelude.{◌≡◌, ◌≤◌, ◌<◌, [], Some, length, map, All, OnOk, IsErrOf};
ghost use Rattle.disk_model.specs.Images.{Image};
ghost use Rattle.disk_model.specs.DiskLaws.{Stays};
ghost use Rattle.disk_model.specs.Crashes.{LeavesOnly, NothingPending};
ghost use Rattle.page_tree.specs.ChainWrites.{pages_for, AreOpen};
ghost use Rattle.uber_ring.specs.RingWrites.{slot_of};
ghost use Rattle.pool_model.specs.Mirrors.{stored_of};
ghost use Rattle.table_state.specs.Sealed.{places_in};
ghost use Rattle.txg_sync.specs.SyncFaults.{SealAccounts};
ghost use Rattle.txg_sync.specs.Stages.{Fills};
ghost use Rattle.txg_sync.specs.Writing.{with_roots, group_places, FollowsSeal, IsUnsealed, MayBeSealed, Seals, LeavesGate};
ghost use Rattle.txg_sync.specs.declared.fault.SealFault.TheVariants.{ReadFault, WriteFault, GateFault};

use crate::fault::SealFault;
use crate::fill::fill_slot;
use crate::part::ChainPages;
use crate::store::store_group;
use crate::take::take_slot;
use disk_model::{Disk, crash_laws};
use page_tree::PagePtr;
use pool_model::StoredBlock;
use uber_ring::{Seal, open_slot, seal_fits};

/// A seal with these pointers.
fn with_pointers(seal: &Seal, pointers: [PagePtr; 6]) -> Seal
    ensures { result ≡ record seal.now { pointers = pointers } }
{
    Seal { pointers, ..*seal }
}

/// Writes all of a group but its gate, behind the newest sealed group: takes its slot of the ring, writes its
/// blocks and the pages of its five chains, and then the body of its seal, whose roots are those of the chains.
/// Up to its end, also where it fails, a crash leaves the seal that counted before. It never answers `GateFault`.
/// Takes no memory.
pub fn fill_group<D: Disk>(
    disk: &mut D,
    seal: &Seal,
    contents: &[StoredBlock],
    parts: &[ChainPages],
) -> Result<(), SealFault>
    requires enough { 2048 ≤ (D.state disk.old).sectors }
    requires follows { FollowsSeal seal.now.group (D.state disk.old).seen }
    requires version { seal.now.version ≡ 0 }
    requires behind { All (λ stored. 32 ≤ stored.place) contents.now }
    requires within { All (λ stored. stored.place < (D.state disk.old).sectors) contents.now }
    requires lengths { All (λ stored. length stored.block.items ≤ 4096) contents.now }
    requires chains { length parts.now ≡ 5 }
    requires pages { All (λ part. length part.places ≡ pages_for (length part.records)) parts.now }
    requires places { AreOpen (D.state disk.old).sectors [] (places_in parts.now) }
    ensures filled { OnOk result (Fills (map stored_of contents.now) parts.now (with_roots seal.now parts.now)
        (D.state disk.old).seen (D.state disk.new).seen) }
    ensures durable { OnOk result (NothingPending (D.state disk.new).seen (D.state disk.new).may_leave) }
    ensures any_moment { (image : Image) → (D.state disk.old).seen ≡ Some image → NothingPending (Some image) (D.state disk.old).may_leave
        → LeavesOnly (D.state disk.old) (D.state disk.new)
        (IsUnsealed (slot_of seal.now.group) (group_places (map stored_of contents.now) parts.now) image) }
    ensures unread { IsErrOf result ReadFault → Stays (D.state disk.old).seen (D.state disk.new).seen }
    ensures unread_crash { IsErrOf result ReadFault → (c : Image) → (D.state disk.new).may_leave c → (D.state disk.old).may_leave c }
    ensures ungated { IsErrOf result GateFault → ⊥ }
    ensures accounts { SealAccounts (D.state disk.old) (D.state disk.new) result }
{
    crash_laws(disk);
    let _sectors = disk.sectors();
    let slot = (seal.group % 16) as u32;
    take_slot(disk, slot)?;
    let mut pointers = [PagePtr::NULL; 6];
    let Ok(()) = store_group(disk, contents, parts, &mut pointers) else {
        return Err(SealFault::WriteFault);
    };
    crash_laws(disk);
    let _stored = disk.sectors();
    let sealed = with_pointers(seal, pointers);
    seal_fits(sealed);
    let Ok(()) = fill_slot(disk, &sealed) else {
        return Err(SealFault::WriteFault);
    };
    Ok(())
}

/// Seals a group behind the newest one: writes all of it but its gate, and opens the gate. `WriteFault` comes
/// before the gate is written, and `GateFault` from then on. Takes no memory.
pub fn seal_group<D: Disk>(
    disk: &mut D,
    seal: &Seal,
    contents: &[StoredBlock],
    parts: &[ChainPages],
) -> Result<(), SealFault>
    requires enough { 2048 ≤ (D.state disk.old).sectors }
    requires follows { FollowsSeal seal.now.group (D.state disk.old).seen }
    requires version { seal.now.version ≡ 0 }
    requires behind { All (λ stored. 32 ≤ stored.place) contents.now }
    requires within { All (λ stored. stored.place < (D.state disk.old).sectors) contents.now }
    requires lengths { All (λ stored. length stored.block.items ≤ 4096) contents.now }
    requires chains { length parts.now ≡ 5 }
    requires pages { All (λ part. length part.places ≡ pages_for (length part.records)) parts.now }
    requires places { AreOpen (D.state disk.old).sectors [] (places_in parts.now) }
    ensures sealed { OnOk result (Seals (slot_of seal.now.group) (map stored_of contents.now) parts.now (with_roots seal.now parts.now)
        (D.state disk.old).seen (D.state disk.new).seen) }
    ensures durable { OnOk result (NothingPending (D.state disk.new).seen (D.state disk.new).may_leave) }
    ensures any_moment { (image : Image) → (D.state disk.old).seen ≡ Some image → NothingPending (Some image) (D.state disk.old).may_leave
        → LeavesOnly (D.state disk.old) (D.state disk.new)
        (MayBeSealed (slot_of seal.now.group) (map stored_of contents.now) parts.now (with_roots seal.now parts.now) image) }
    ensures at_the_gate { IsErrOf result GateFault → LeavesGate (slot_of seal.now.group) (map stored_of contents.now) parts.now
        (with_roots seal.now parts.now) (D.state disk.old).seen (D.state disk.new).seen }
    ensures before_the_gate { (image : Image) → (D.state disk.old).seen ≡ Some image
        → NothingPending (Some image) (D.state disk.old).may_leave → IsErrOf result WriteFault
        → LeavesOnly (D.state disk.old) (D.state disk.new)
        (IsUnsealed (slot_of seal.now.group) (group_places (map stored_of contents.now) parts.now) image) }
    ensures unread { IsErrOf result ReadFault → Stays (D.state disk.old).seen (D.state disk.new).seen }
    ensures unread_crash { IsErrOf result ReadFault → (c : Image) → (D.state disk.new).may_leave c → (D.state disk.old).may_leave c }
    ensures accounts { SealAccounts (D.state disk.old) (D.state disk.new) result }
{
    crash_laws(disk);
    let _sectors = disk.sectors();
    fill_group(disk, seal, contents, parts)?;
    let slot = (seal.group % 16) as u32;
    let Ok(()) = open_slot(disk, slot) else {
        return Err(SealFault::GateFault);
    };
    Ok(())
}
