use crate::bodies::put;
use crate::comparing::assert_same;
use disk_model::{Disk, MemDisk};
use page_tree::{FindFault, PagePtr, PageReader, PlainReader};
use sha2::{Digest, Sha256};
use std::process::Abort;
use std::test::Fail;

/// The first byte of a pointer's page, by the trait's contract alone.
fn first_byte<D: Disk, P: PageReader<D>>(
    rt: &impl Abort,
    disk: &D,
    reader: &mut P,
    ptr: &PagePtr,
) -> Result<u8, FindFault>
    requires { P.fits reader.old disk.now }
{
    assert!(rt; ptr.sector < disk.sectors());
    let mut out = [0u8; 4096];
    reader.page(disk, ptr, &mut out)?;
    Ok(out[0])
}

/// A pointer to a page of sevens in this sector.
fn pointer_to(sector: u64) -> PagePtr {
    PagePtr {
        sector,
        digest: Sha256::digest([7u8; 4096].as_slice()),
    }
}

#[test]
fn a_page_is_given_where_it_has_its_digest(rt: HostRuntime) -> Result<(), Fail> {
    let mut disk = MemDisk::new(rt.alloc(), 64)?;
    put(&rt, &mut disk, 40, &[7; 4096])?;
    let page = pointer_to(40);
    disk.fail_reads(1, 3, 3);
    let mut reader = PlainReader {
        meter: disk.meter()?,
    };
    for (what, ptr, answer) in [
        ("the page", page, Ok(7)),
        (
            "another sector",
            pointer_to(41),
            Err(FindFault::Damaged(41)),
        ),
        ("the third read", page, Err(FindFault::ReadFault)),
        ("the page again", page, Ok(7)),
    ] {
        let byte = first_byte(&rt, &disk, &mut reader, &ptr);
        assert_same(&rt, what, byte, answer);
    }
    Ok(())
}
