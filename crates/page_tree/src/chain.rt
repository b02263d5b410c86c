ghost use Rattle.std.specs.Prelude.{◌≡◌, ◌≤◌, ◌<◌, length, All, Some, IfOk, OnOk, OnErr};
ghost use Rattle.sha2.specs.Sha256.{sha256};
ghost use Rattle.disk_model.specs.Images.{Image};
ghost use Rattle.disk_model.specs.DiskLaws.{Torn, Holds, MayTouch};
ghost use Rattle.disk_model.specs.Crashes.{LeavesOnly};
ghost use Rattle.disk_model.specs.Accounts.{Accounts};
ghost use Rattle.page_tree.specs.ChainWrites.{page_before, write_page, chain_of, pages_for, Written, MayTouchAll, ChainLeaves};

use crate::chain_page::{PAGE_RECORDS, chain_page_of};
use crate::pointer::PagePtr;
use disk_model::{Disk, Failed, crash_laws};
use sha2::{Digest, Sha256};

/// Writes a page in front of a chain, and answers the pointer to it.
fn write_page<D: Disk>(
    disk: &mut D,
    next: Option<PagePtr>,
    records: &[[u8; 72]],
    place: u64,
) -> Result<PagePtr, Failed>
    requires room { length records.now ≤ 56 }
    requires within { place < (D.state disk.old).sectors }
    ensures pointer { IfOk result (λ pointer. pointer ≡ record { sector = place; digest = sha256 (page_before next records.now) }) }
    ensures written { OnOk result (Holds (D.state disk.old).seen (D.state disk.new).seen place (page_before next records.now)) }
    ensures touched { OnErr result (MayTouch (D.state disk.old).seen (D.state disk.new).seen place) }
    ensures any_moment { LeavesOnly (D.state disk.old) (D.state disk.new)
        (λ c. (d : Image) × (D.state disk.old).may_leave d × Torn place d c) }
    ensures accounts { Accounts (D.state disk.old) (D.state disk.new) result }
{
    crash_laws(disk);
    let page = chain_page_of(&next.unwrap_or(PagePtr::NULL), records);
    disk.write(place, &page)?;
    Ok(PagePtr {
        sector: place,
        digest: Sha256::digest(&page),
    })
}

/// Writes the chain of these records at these places, 56 records a page, from its last page to its first,
/// with no barrier behind it. Answers the pointer to the first page, and `None` where there is no
/// record. Takes no memory.
pub fn write_chain<D: Disk>(
    disk: &mut D,
    records: &[[u8; 72]],
    places: &[u64],
) -> Result<Option<PagePtr>, Failed>
    requires pages { length places.now ≡ pages_for (length records.now) }
    requires within { All (λ place. place < (D.state disk.old).sectors) places.now }
    ensures root { IfOk result (λ root. root ≡ (chain_of places.now records.now).root) }
    ensures written { OnOk result (Written (D.state disk.old).seen (D.state disk.new).seen (chain_of places.now records.now).writes) }
    ensures touched { MayTouchAll (D.state disk.old).seen (D.state disk.new).seen places.now }
    ensures any_moment { LeavesOnly (D.state disk.old) (D.state disk.new)
        (ChainLeaves places.now (D.state disk.old).may_leave) }
    ensures accounts { Accounts (D.state disk.old) (D.state disk.new) result }
{
    crash_laws(disk);
    let mut next = None;
    let mut left = places.len();
    'pages: while left > 0 {
        left -= 1;
        let behind = records.split_at(PAGE_RECORDS * left).1;
        let page = behind.split_at(PAGE_RECORDS.min(behind.len())).0;
        next = Some(write_page(disk, next, page, places[left])?);
        crash_laws(disk);
    }
    Ok(next)
}
