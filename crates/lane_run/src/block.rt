//! The block that stands at a place while a group runs: one that the group stored, or one on the disk.

ghost use Rattle.std.specs.Prelude.{◌≡◌, ◌==◌, ◌≤◌, ◌<◌, ℕ, length, map, Some, IfOk};
ghost use Rattle.std.specs.List.{AllByRecursion, find};
ghost use Rattle.std.specs.Option.{option_copied};
ghost use Rattle.disk_model.specs.Images.{Image};
ghost use Rattle.disk_model.specs.Faults.{HasCause};
ghost use Rattle.pool_model.specs.Mirrors.{stored_of};
ghost use Rattle.lane_run.specs.Live.{sector_here};

use disk_model::{Disk, Failed, SECTOR_BYTES};
use pool_model::StoredBlock;
use table_state::sector_of;

/// The block that the group stored at a place.
fn stored_at(contents: &[StoredBlock], place: u64) -> Option<&StoredBlock>
    ensures { option_copied result ≡ find (λ stored. stored.place == place) contents.now }
{
    contents.iter().find(|stored| stored.place == place)
}

/// The sector at a place: a block of the group with zeros behind it, or what the disk has.
pub fn sector_at<D: Disk>(
    disk: &D,
    meter: &mut D::Meter,
    contents: &[StoredBlock],
    place: u64,
) -> Result<[u8; SECTOR_BYTES], Failed>
    requires on_disk { place < (D.state disk.now).sectors }
    requires blocks { AllByRecursion (λ stored. length stored.bytes ≤ 4096) (map stored_of contents.now) }
    ensures bytes { (image : Image) → (D.state disk.now).seen ≡ Some image
        → IfOk result (λ sector. sector ≡ sector_here image (map stored_of contents.now) place) }
    ensures cause { HasCause (D.meter_faults meter.old) (D.meter_faults meter.new) result }
{
    if let Some(stored) = stored_at(contents, place) {
        return Ok(sector_of(stored.block.as_slice()));
    }
    let mut sector = [0; SECTOR_BYTES];
    disk.read(meter, place, &mut sector)?;
    Ok(sector)
}
