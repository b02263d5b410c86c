ghost use Rattle.std.specs.Prelude.{◌≡◌, ◌≤◌, ◌<◌, ◌%◌, ◌*◌, ◌+◌, ℕ, Option, IfOk, IfSome, OnOk, OnErr};
ghost use Rattle.disk_model.specs.DiskLaws.{Holds, MayTouch, TellsImage};
ghost use Rattle.disk_model.specs.Crashes.{LeavesOnly, NothingPending};
ghost use Rattle.disk_model.specs.Accounts.{Accounts};
ghost use Rattle.disk_model.specs.Faults.{HasCause};
ghost use Rattle.uber_ring.specs.Spelling.{body_bytes, open_gate};
ghost use Rattle.uber_ring.specs.Ring.{gate_sector, body_sector, gate_is_open, seal_at, higher, newest};
ghost use Rattle.uber_ring.specs.RingWrites.{slot_of, ClosingLeaves, OpeningLeaves, WritingLeaves, Closes, MayClose};

use crate::body::{body_of, seal_of};
use crate::gate::{closed_gate_bytes, is_gate_open, open_gate_bytes};
use crate::seal::Seal;
use disk_model::{Disk, Failed, crash_laws};

/// How many slots the ring has.
pub const SLOTS: u32 = 16;

/// How many sectors a pool has at the least.
pub const FEWEST_SECTORS: u64 = 2048;

/// The seal that counts: the valid one of the highest group, for a program that reads this version.
/// `None` exactly where no slot is valid. Takes no memory.
pub fn find<D: Disk>(disk: &D, meter: &mut D::Meter, version: u32) -> Result<Option<Seal>, Failed>
    ensures found { IfOk result (λ found. IfSome (D.state disk.now).seen (λ image. found ≡ newest version image)) }
    ensures cause { HasCause (D.meter_faults meter.old) (D.meter_faults meter.new) result }
{
    if disk.sectors() < FEWEST_SECTORS {
        return Ok(None);
    }
    let mut best = None;
    'slots: for slot in 0..SLOTS {
        best = higher(best, valid_seal(disk, meter, version, slot)?);
    }
    Ok(best)
}

/// The one of the higher group.
fn higher(best: Option<Seal>, seal: Option<Seal>) -> Option<Seal>
    ensures { result ≡ higher best seal }
{
    match (best, seal) {
        (None, seal) => seal,
        (Some(best), None) => Some(best),
        (Some(best), Some(seal)) => Some(if best.group < seal.group { seal } else { best }),
    }
}

/// The valid seal of a slot. The body is read only where the gate is open.
fn valid_seal<D: Disk>(
    disk: &D,
    meter: &mut D::Meter,
    version: u32,
    slot: u32,
) -> Result<Option<Seal>, Failed>
    requires pool { 2048 ≤ (D.state disk.now).sectors }
    requires told { TellsImage (D.state disk.now).sectors (D.state disk.now).seen }
    requires slot { slot < 16 }
    ensures seal { IfOk result (λ seal. IfSome (D.state disk.now).seen (λ image. seal ≡ seal_at version image slot)) }
    ensures cause { HasCause (D.meter_faults meter.old) (D.meter_faults meter.new) result }
{
    if !gate_open(disk, meter, slot)? {
        return Ok(None);
    }
    let mut body = [0u8; 4096];
    disk.read(meter, 2 * slot as u64 + 1, &mut body)?;
    Ok(seal_of(&body, version, slot))
}

/// Whether a slot's gate reads open. Takes no memory.
pub fn gate_open<D: Disk>(disk: &D, meter: &mut D::Meter, slot: u32) -> Result<bool, Failed>
    requires ring { 32 ≤ (D.state disk.now).sectors }
    requires slot { slot < 16 }
    ensures gate { IfOk result (λ is_open. IfSome (D.state disk.now).seen (λ image. is_open ≡ gate_is_open image slot)) }
    ensures cause { HasCause (D.meter_faults meter.old) (D.meter_faults meter.new) result }
{
    let mut gate = [0u8; 4096];
    disk.read(meter, 2 * slot as u64, &mut gate)?;
    Ok(is_gate_open(&gate))
}

/// Closes a slot whose gate was open, and makes a barrier in any case. A gate that was closed isn't
/// written: a torn write of it could read as open before a body that an earlier attempt left.
/// Takes no memory.
pub fn close_slot<D: Disk>(disk: &mut D, slot: u32, was_open: bool) -> Result<(), Failed>
    requires ring { 32 ≤ (D.state disk.old).sectors }
    requires slot { slot < 16 }
    ensures closed { OnOk result (Closes slot was_open (D.state disk.old).seen (D.state disk.new).seen) }
    ensures touched { OnErr result (MayClose slot was_open (D.state disk.old).seen (D.state disk.new).seen) }
    ensures durable { OnOk result (NothingPending (D.state disk.new).seen (D.state disk.new).may_leave) }
    ensures any_moment { LeavesOnly (D.state disk.old) (D.state disk.new)
        (ClosingLeaves slot was_open (D.state disk.old).may_leave) }
    ensures accounts { Accounts (D.state disk.old) (D.state disk.new) result }
{
    crash_laws(disk);
    if !was_open {
        return disk.barrier();
    }
    disk.write(2 * slot as u64, &closed_gate_bytes())?;
    disk.barrier()
}

/// Writes the body of a seal into its group's slot, with no barrier behind it. Takes no memory.
pub fn write_body<D: Disk>(disk: &mut D, seal: &Seal) -> Result<(), Failed>
    requires ring { 32 ≤ (D.state disk.old).sectors }
    ensures written { OnOk result (Holds (D.state disk.old).seen (D.state disk.new).seen
        (body_sector (slot_of seal.now.group)) (body_bytes seal.now)) }
    ensures touched { OnErr result (MayTouch (D.state disk.old).seen (D.state disk.new).seen
        (body_sector (slot_of seal.now.group))) }
    ensures any_moment { LeavesOnly (D.state disk.old) (D.state disk.new)
        (WritingLeaves (slot_of seal.now.group) (D.state disk.old).may_leave) }
    ensures accounts { Accounts (D.state disk.old) (D.state disk.new) result }
{
    crash_laws(disk);
    let slot = seal.group % SLOTS as u64;
    disk.write(2 * slot + 1, &body_of(seal))
}

/// Opens a slot's gate, and makes a barrier. Takes no memory.
pub fn open_slot<D: Disk>(disk: &mut D, slot: u32) -> Result<(), Failed>
    requires ring { 32 ≤ (D.state disk.old).sectors }
    requires slot { slot < 16 }
    ensures opened { OnOk result (Holds (D.state disk.old).seen (D.state disk.new).seen (gate_sector slot) open_gate) }
    ensures touched { OnErr result (MayTouch (D.state disk.old).seen (D.state disk.new).seen (gate_sector slot)) }
    ensures durable { OnOk result (NothingPending (D.state disk.new).seen (D.state disk.new).may_leave) }
    ensures any_moment { LeavesOnly (D.state disk.old) (D.state disk.new)
        (OpeningLeaves slot (D.state disk.old).may_leave) }
    ensures accounts { Accounts (D.state disk.old) (D.state disk.new) result }
{
    crash_laws(disk);
    disk.write(2 * slot as u64, &open_gate_bytes())?;
    disk.barrier()
}
