ghost use Rattle.std.specs.Prelude.{◌≡◌, ◌≤◌, ◌<◌, ◌++◌, [], ◌∷◌, ◌&&◌, ℕ, ⊤, Option, length, IfSome, OnOk, IsErrOf, Some, None, not, ◌==◌, nat_le, nat_lt};
ghost use Rattle.std.specs.List.{list_any};
ghost use Rattle.std.specs.Str.{bytes_eq};
ghost use Rattle.sha2.specs.Sha256.{sha256};
ghost use Rattle.disk_model.specs.Faults.{Rose, HasCause};
ghost use Rattle.page_tree.specs.Chains.{count_in, next_in, chain_page_in, is_chain_page, is_open_to, chain_in, pointer_or_null};
ghost use Rattle.page_tree.specs.Readers.{HasWalked};
ghost use Rattle.page_tree.specs.declared.fault.PageFault.TheVariants.{ReadFault, Damaged};

use crate::chain_page::{count_of, has_form, is_null_pointer, next_of};
use crate::fault::PageFault;
use crate::pointer::PagePtr;
use ddt_entry::fields::array_at;
use disk_model::Disk;
use reserved_list::ReservedList;
use sha2::{Digest, Sha256};
use std::alloc::AllocError;

/// Sectors, by their numbers.
pub type SectorList = ReservedList<u64>;

/// Records of 72 bytes.
pub type RecordList = ReservedList<[u8; 72]>;

/// Whether a page may lie in a sector: outside the ring, on the disk, and not named yet.
fn is_open_to(sectors: u64, named: &SectorList, sector: u64) -> bool
    ensures { result ≡ is_open_to sectors named.now.items sector }
{
    32 <= sector && sector < sectors && !named.as_slice().contains(&sector)
}

/// Whether bytes have a digest.
fn has_digest(page: &[u8; 4096], digest: &[u8; 32]) -> bool
    ensures { result ≡ bytes_eq (sha256 page.now) digest.now }
{
    Sha256::digest(page) == *digest
}

/// The pointer to a chain's first page, which is null where there is none.
fn pointer_or_null(root: &Option<PagePtr>) -> PagePtr
    ensures { result ≡ pointer_or_null root.now }
{
    match root {
        Some(pointer) => *pointer,
        None => PagePtr::NULL,
    }
}

/// Appends a sector. The error is want of memory.
fn append(named: &mut SectorList, sector: u64) -> Result<(), AllocError>
    ensures { OnOk result (named.new.items ≡ named.old.items ++ sector ∷ []) }
{
    named.reserve(1)?;
    named.push(sector);
    Ok(())
}

/// Whether bytes are the page of a pointer, and a page of a chain.
fn is_page_of(page: &[u8; 4096], pointer: &PagePtr) -> bool
    ensures { result ≡ (bytes_eq (sha256 page.now) pointer.now.digest && is_chain_page page.now) }
{
    has_digest(page, &pointer.digest) && has_form(page)
}

/// Appends the records of a page that has the form. The error is want of memory.
fn take_records(page: &[u8; 4096], out: &mut RecordList) -> Result<(), AllocError>
    requires { count_in page.now ≤ 56 }
    ensures ok { OnOk result (out.new.items ≡ out.old.items ++ (chain_page_in page.now).records) }
{
    let count = count_of(page);
    out.reserve(count as u64)?;
    'records: for i in 0..count as usize {
        out.push(array_at(page, 48 + 72 * i));
    }
    Ok(())
}

/// Reads a chain from its root on: appends its sectors to those that are named, and its records to `out`.
/// Each page has to lie outside the ring, on the disk, in a sector that isn't named yet, to have its
/// pointer's digest, and to have the form; `Damaged` has the sector of a page that doesn't. What was
/// appended before a fault stays. The error `Memory` is want of memory for the two lists.
pub fn read_chain<D: Disk>(
    disk: &D,
    meter: &mut D::Meter,
    root: &Option<PagePtr>,
    named: &mut SectorList,
    out: &mut RecordList,
) -> Result<(), PageFault>
    ensures read { OnOk result (IfSome (D.state disk.now).seen (λ image. HasWalked
        (chain_in image (D.state disk.now).sectors named.old.items root.now) named.new.items out.old.items out.new.items)) }
    ensures damaged { (sector : ℕ) → IsErrOf result (Damaged sector) →
        IfSome (D.state disk.now).seen (λ image. chain_in image (D.state disk.now).sectors named.old.items root.now ≡ None) }
    ensures count { D.meter_faults meter.old ≤ D.meter_faults meter.new }
    ensures cause { IsErrOf result ReadFault → Rose (D.meter_faults meter.old) (D.meter_faults meter.new) }
{
    let sectors = disk.sectors();
    let mut pointer = pointer_or_null(root);
    let mut page = [0u8; 4096];
    'pages: for _ in 0..sectors {
        if is_null_pointer(&pointer) {
            return Ok(());
        }
        if !is_open_to(sectors, named, pointer.sector) {
            return Err(PageFault::Damaged(pointer.sector));
        }
        let Ok(()) = disk.read(meter, pointer.sector, &mut page) else {
            return Err(PageFault::ReadFault);
        };
        if !is_page_of(&page, &pointer) {
            return Err(PageFault::Damaged(pointer.sector));
        }
        append(named, pointer.sector)?;
        take_records(&page, out)?;
        pointer = next_of(&page);
    }
    Err(PageFault::Damaged(pointer.sector))
}
