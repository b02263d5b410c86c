use crate::bodies::{close, open, put, read_back, reads_open, written_body};
use crate::comparing::{assert_same, assert_same_at};
use disk_model::{Disk, Failed, MemDisk};
use page_tree::PagePtr;
use sha2::{Digest, Sha256};
use std::alloc::Global;
use std::process::Abort;
use std::test::Fail;
use uber_ring::{Seal, find};

/// A pointer whose sector and digest are made of one byte each.
fn pointer(sector: u8, digest: u8) -> PagePtr {
    PagePtr {
        sector: sector as u64,
        digest: [digest; 32],
    }
}

/// A seal whose fields all differ.
fn sample() -> Seal {
    Seal {
        version: 1,
        tag: 255,
        group: 0x1112_1314_1516_1718,
        sectors: 0x2122_2324_2526_2728,
        quota: 0x3132_3334_3536_3738,
        quota_flag: 0x4142_4344,
        modes: [0, 1, 2, 3, 4, 5, 6, 7, 8, 9, 10, 11, 12, 13, 14, 15],
        age: 0x5152_5354_5556_5758,
        active_changes: 0x6162_6364_6566_6768,
        flushing_changes: 0x7172_7374_7576_7778,
        checkpoint_flag: 0x8182_8384,
        checkpoint_len: 0x9192_9394,
        checkpoint_digest: [0xa1; 32],
        pointers: [
            pointer(0xb1, 0xb2),
            pointer(0xc1, 0xc2),
            pointer(0xd1, 0xd2),
            pointer(0xe1, 0xe2),
            pointer(0xf1, 0xf2),
            pointer(0x19, 0x29),
        ],
        homes: 0x3931_3233_3435_3637,
        counts: 0x4941_4243_4445_4647,
        pages: 0x5951_5253_5455_5657,
    }
}

/// The sector of the gate of the sample's slot, which is 0x18 modulo 16, before the one of its body.
const GATE: u64 = 16;

/// A disk on which the sample's slot has this body behind an open gate.
fn disk_of(rt: &impl Abort, alloc: Global, body: &[u8; 4096]) -> Result<MemDisk, Fail> {
    let mut disk = MemDisk::new(alloc, 2048)?;
    put(rt, &mut disk, GATE + 1, body)?;
    open(rt, &mut disk, 8)?;
    Ok(disk)
}

/// The seal that counts at this version.
fn found_in<D: Disk>(disk: &mut D, version: u32) -> Result<Option<Seal>, Failed> {
    let mut meter = disk.meter()?;
    let found = find(disk, &mut meter, version);
    disk.retire(meter);
    found
}

/// Sees which seal counts at this version.
fn assert_found<D: Disk>(
    rt: &impl Abort,
    disk: &mut D,
    what: &str,
    version: u32,
    seal: Option<Seal>,
) -> Result<(), Failed> {
    let found = found_in(disk, version)?;
    assert_same(rt, what, found, seal);
    Ok(())
}

/// Sees which bytes stand at an offset.
fn assert_bytes(rt: &impl Abort, body: &[u8; 4096], offset: usize, bytes: &[u8]) {
    assert!(rt; offset < 4096 && bytes.len() <= 4096 - offset);
    let found = body.split_at(offset).1.split_at(bytes.len()).0;
    assert_same_at(rt, "the bytes at", offset as u64, found, bytes);
}

/// Sees the numbers in front of the pointers.
fn assert_numbers(rt: &impl Abort, body: &[u8; 4096]) {
    assert_bytes(rt, body, 0, b"DDTSEAL1");
    assert_bytes(rt, body, 8, &[1, 0, 0, 0, 255, 0, 0, 0, 0x18, 0x17]);
    let sectors = [0x28, 0x27, 0x26, 0x25, 0x24, 0x23, 0x22, 0x21, 0x38];
    assert_bytes(rt, body, 24, &sectors);
    let modes = [0x44, 0x43, 0x42, 0x41, 0, 0, 0, 0, 0, 1, 2, 3];
    assert_bytes(rt, body, 40, &modes);
    assert_bytes(rt, body, 62, &[14, 15, 0x58, 0x57]);
    assert_bytes(rt, body, 71, &[0x51, 0x68]);
    assert_bytes(rt, body, 79, &[0x61, 0x78]);
    let checkpoint = [0x71, 0x84, 0x83, 0x82, 0x81, 0x94, 0x93, 0x92, 0x91, 0xa1];
    assert_bytes(rt, body, 87, &checkpoint);
}

/// Sees the pointers, and the numbers and the digest behind them.
fn assert_pointers(rt: &impl Abort, body: &[u8; 4096]) {
    assert_bytes(rt, body, 127, &[0xa1, 0xb1, 0, 0, 0, 0, 0, 0, 0, 0xb2]);
    assert_bytes(rt, body, 167, &[0xb2, 0xc1, 0]);
    assert_bytes(rt, body, 207, &[0xc2, 0xd1, 0]);
    assert_bytes(rt, body, 247, &[0xd2, 0xe1, 0]);
    assert_bytes(rt, body, 287, &[0xe2, 0xf1, 0]);
    assert_bytes(rt, body, 327, &[0xf2, 0x19, 0]);
    assert_bytes(rt, body, 367, &[0x29, 0x37, 0x36]);
    assert_bytes(rt, body, 375, &[0x39, 0x47]);
    assert_bytes(rt, body, 383, &[0x49, 0x57]);
    assert_bytes(rt, body, 391, &[0x59, 0, 0]);
    assert_bytes(rt, body, 4062, &[0, 0]);
    assert_bytes(rt, body, 4064, &digest_of(body));
}

/// The digest over a body, but for its last 32 bytes.
fn digest_of(body: &[u8; 4096]) -> [u8; 32] {
    Sha256::digest(body.split_at(4064).0)
}

#[test]
fn each_field_stands_at_its_offset(rt: HostRuntime) -> Result<(), Fail> {
    let body = written_body(&rt, rt.alloc(), &sample())?;
    assert_numbers(&rt, &body);
    assert_pointers(&rt, &body);
    Ok(())
}

/// Puts a body into the sample's slot, and sees that it counts at its version alone.
fn read_in_place(rt: &impl Abort, disk: &mut MemDisk, body: &[u8; 4096]) -> Result<(), Failed> {
    put(rt, disk, GATE + 1, body)?;
    open(rt, disk, 8)?;
    assert_found(rt, disk, "at its version", 1, Some(sample()))?;
    assert_found(rt, disk, "at another version", 0, None)
}

/// Puts a body into the slot behind the sample's, and sees that it doesn't count.
fn read_elsewhere(rt: &impl Abort, disk: &mut MemDisk, body: &[u8; 4096]) -> Result<(), Failed> {
    put(rt, disk, GATE + 3, body)?;
    open(rt, disk, 9)?;
    assert_found(rt, disk, "in another slot", 1, None)
}

#[test]
fn a_seal_is_read_back_in_its_slot(rt: HostRuntime) -> Result<(), Fail> {
    let body = written_body(&rt, rt.alloc(), &sample())?;
    let mut disk = MemDisk::new(rt.alloc(), 2048)?;
    read_in_place(&rt, &mut disk, &body)?;
    Ok(())
}

#[test]
fn a_seal_is_not_read_back_in_another_slot(rt: HostRuntime) -> Result<(), Fail> {
    let body = written_body(&rt, rt.alloc(), &sample())?;
    let mut disk = MemDisk::new(rt.alloc(), 2048)?;
    read_elsewhere(&rt, &mut disk, &body)?;
    Ok(())
}

/// Sees that this body in the sample's slot spells no seal.
fn assert_no_seal(
    rt: &impl Abort,
    alloc: Global,
    what: &str,
    body: &[u8; 4096],
) -> Result<(), Fail> {
    let mut disk = disk_of(rt, alloc, body)?;
    assert_found(rt, &mut disk, what, 1, None)?;
    Ok(())
}

/// Bytes of a body.
const PLACES: [(&str, usize); 7] = [
    ("with another byte at 0", 0),
    ("with another byte at 8", 8),
    ("with another byte at 45", 45),
    ("with another byte at 400", 400),
    ("with another byte at 4063", 4063),
    ("with another byte at 4064", 4064),
    ("with another byte at 4095", 4095),
];

/// A body of which the byte at this place is another.
fn changed(rt: &impl Abort, body: &[u8; 4096], place: usize) -> [u8; 4096] {
    assert!(rt; place < 4096);
    let mut other = *body;
    other[place] ^= 1;
    other
}

#[test]
fn a_changed_byte_leaves_no_seal(rt: HostRuntime) -> Result<(), Fail> {
    let whole = written_body(&rt, rt.alloc(), &sample())?;
    for (what, place) in PLACES {
        let body = changed(&rt, &whole, place);
        assert_no_seal(&rt, rt.alloc(), what, &body)?;
    }
    Ok(())
}

/// A body with another text in front, and the digest over it.
fn with_another_text(body: &[u8; 4096]) -> [u8; 4096] {
    let mut other = *body;
    other[7] = b'2';
    let digest = digest_of(&other);
    for (place, byte) in digest.iter().enumerate() {
        other[4064 + place] = *byte;
    }
    other
}

#[test]
fn another_text_in_front_leaves_no_seal(rt: HostRuntime) -> Result<(), Fail> {
    let body = written_body(&rt, rt.alloc(), &sample())?;
    let other = with_another_text(&body);
    assert_no_seal(&rt, rt.alloc(), "with another text", &other)
}

/// Sees whether the gate of the sample's slot reads open.
fn assert_gate<D: Disk>(
    rt: &impl Abort,
    disk: &mut D,
    what: &str,
    is_open: bool,
) -> Result<(), Failed> {
    let found = reads_open(rt, disk, 8)?;
    assert_same(rt, what, found, is_open);
    Ok(())
}

/// Changes the gate of an open slot behind its text, and then in it.
fn change_gate(rt: &impl Abort, disk: &mut MemDisk) -> Result<(), Failed> {
    let mut gate = read_back(rt, disk, GATE)?;
    assert_same(rt, "its text", gate.split_at(8).0, b"DDTOPEN1".as_slice());
    gate[8] = 77;
    gate[4095] = 78;
    put(rt, disk, GATE, &gate)?;
    assert_gate(rt, disk, "whether it is open behind other bytes", true)?;
    gate[7] = b'2';
    put(rt, disk, GATE, &gate)?;
    assert_gate(rt, disk, "whether it is open by another text", false)
}

/// Opens the gate of the sample's slot, changes it, and closes it.
fn use_gate(rt: &impl Abort, disk: &mut MemDisk) -> Result<(), Failed> {
    open(rt, disk, 8)?;
    assert_gate(rt, disk, "whether it is open", true)?;
    change_gate(rt, disk)?;
    close(rt, disk, 8, true)?;
    assert_gate(rt, disk, "whether it is open then", false)?;
    let closed = read_back(rt, disk, GATE)?;
    let zeros = [0; 4096];
    assert_same(rt, "its bytes then", closed.as_slice(), zeros.as_slice());
    Ok(())
}

#[test]
fn a_gate_is_open_by_its_text_alone(rt: HostRuntime) -> Result<(), Fail> {
    let mut disk = MemDisk::new(rt.alloc(), 32)?;
    use_gate(&rt, &mut disk)?;
    Ok(())
}
