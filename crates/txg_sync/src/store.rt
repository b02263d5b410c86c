ghost use Rattle.std.specs.Prelude.{◌≡◌, ◌≤◌, ◌<◌, ◌++◌, [], length, map, drop, All, OnOk};
ghost use Rattle.disk_model.specs.Crashes.{LeavesOnly};
ghost use Rattle.disk_model.specs.Accounts.{Accounts};
ghost use Rattle.page_tree.specs.ChainWrites.{pages_for, AreOpen, MayTouchAll, ChainLeaves};
ghost use Rattle.pool_model.specs.Mirrors.{stored_of};
ghost use Rattle.table_state.specs.Sealed.{places_in, roots_of};
ghost use Rattle.table_state.specs.Closing.{block_places};
ghost use Rattle.txg_sync.specs.Writing.{group_places, Stores, HoldsSince, StoresParts};

use crate::part::ChainPages;
use disk_model::{Disk, Failed, crash_laws};
use page_tree::{PagePtr, write_chain};
use pool_model::StoredBlock;
use table_state::sector_of;

/// Writes blocks to their places, with no barrier behind them. Takes no memory.
pub fn write_blocks<D: Disk>(disk: &mut D, contents: &[StoredBlock]) -> Result<(), Failed>
    requires within { All (λ stored. stored.place < (D.state disk.old).sectors) contents.now }
    requires lengths { All (λ stored. length stored.block.items ≤ 4096) contents.now }
    ensures written { OnOk result (Stores (D.state disk.old).seen (D.state disk.new).seen (map stored_of contents.now)) }
    ensures touched { MayTouchAll (D.state disk.old).seen (D.state disk.new).seen (block_places (map stored_of contents.now)) }
    ensures any_moment { LeavesOnly (D.state disk.old) (D.state disk.new)
        (ChainLeaves (block_places (map stored_of contents.now)) (D.state disk.old).may_leave) }
    ensures accounts { Accounts (D.state disk.old) (D.state disk.new) result }
{
    crash_laws(disk);
    'each: for stored in contents {
        let sector = sector_of(stored.block.as_slice());
        disk.write(stored.place, &sector)?;
        crash_laws(disk);
    }
    Ok(())
}

/// Writes chains to their places, with no barrier behind them, and puts the pointers to their first pages
/// into `pointers`, from its front. Takes no memory.
pub fn write_parts<D: Disk>(
    disk: &mut D,
    parts: &[ChainPages],
    pointers: &mut [PagePtr; 6],
) -> Result<(), Failed>
    requires few { length parts.now ≤ 6 }
    requires pages { All (λ part. length part.places ≡ pages_for (length part.records)) parts.now }
    requires places { AreOpen (D.state disk.old).sectors [] (places_in parts.now) }
    ensures held { OnOk result (HoldsSince (D.state disk.old).seen (D.state disk.new).seen parts.now) }
    ensures roots { OnOk result (pointers.new ≡ roots_of parts.now ++ drop (length parts.now) pointers.old) }
    ensures touched { MayTouchAll (D.state disk.old).seen (D.state disk.new).seen (places_in parts.now) }
    ensures any_moment { LeavesOnly (D.state disk.old) (D.state disk.new)
        (ChainLeaves (places_in parts.now) (D.state disk.old).may_leave) }
    ensures accounts { Accounts (D.state disk.old) (D.state disk.new) result }
{
    crash_laws(disk);
    let _sectors = disk.sectors();
    'chains: for i in 0..parts.len() {
        let part = &parts[i];
        let root = write_chain(disk, part.records.as_slice(), part.places.as_slice())?;
        pointers[i] = root.unwrap_or(PagePtr::NULL);
        crash_laws(disk);
    }
    Ok(())
}

/// Writes the blocks and the chains of a group, with no barrier behind them, and puts the pointers to the
/// chains' first pages into `pointers`, from its front. Takes no memory.
pub fn store_group<D: Disk>(
    disk: &mut D,
    contents: &[StoredBlock],
    parts: &[ChainPages],
    pointers: &mut [PagePtr; 6],
) -> Result<(), Failed>
    requires within { All (λ stored. stored.place < (D.state disk.old).sectors) contents.now }
    requires lengths { All (λ stored. length stored.block.items ≤ 4096) contents.now }
    requires few { length parts.now ≤ 6 }
    requires pages { All (λ part. length part.places ≡ pages_for (length part.records)) parts.now }
    requires places { AreOpen (D.state disk.old).sectors [] (places_in parts.now) }
    ensures stored { OnOk result (StoresParts (map stored_of contents.now) parts.now (D.state disk.old).seen (D.state disk.new).seen) }
    ensures roots { OnOk result (pointers.new ≡ roots_of parts.now ++ drop (length parts.now) pointers.old) }
    ensures touched { MayTouchAll (D.state disk.old).seen (D.state disk.new).seen (group_places (map stored_of contents.now) parts.now) }
    ensures any_moment { LeavesOnly (D.state disk.old) (D.state disk.new)
        (ChainLeaves (group_places (map stored_of contents.now) parts.now) (D.state disk.old).may_leave) }
    ensures accounts { Accounts (D.state disk.old) (D.state disk.new) result }
{
    write_blocks(disk, contents)?;
    crash_laws(disk);
    write_parts(disk, parts, pointers)
}
