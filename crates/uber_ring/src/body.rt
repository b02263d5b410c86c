ghost use Rattle.std.specs.Prelude.{◌≡◌, ◌%◌, ◌≤◌, length, take, drop};
ghost use Rattle.std.specs.Str.{bytes_eq};
ghost use Rattle.sha2.specs.Sha256.{sha256};
ghost use Rattle.page_tree.specs.Pointers.{pointers_in};
ghost use Rattle.uber_ring.specs.Seals.{body_seal, is_body, seal_in, seal_text};
ghost use Rattle.uber_ring.specs.Spelling.{body_bytes, pointers_bytes, settings_bytes, signed_bytes, state_bytes, sums_bytes};
ghost use Rattle.uber_ring.specs.declared.seal.Seal.{Seal};

use crate::seal::Seal;
use arrayvec::ArrayVec;
use ddt_entry::fields::{array_at, u32_at, u64_at};
use page_tree::PagePtr;
use page_tree::front::{full_array, pad_to, put, put_u32, put_u64};
use sha2::{Digest, Sha256};

/// What a body begins with.
const SEAL_TEXT: [u8; 8] = *b"DDTSEAL1";

/// The bytes of a body that its digest is of.
const SIGNED: usize = 4064;

/// The settings of the pool.
#[tactic(auto, unfolding(crate::specs::Spelling::settings_bytes))]
fn settings_of(seal: &Seal) -> [u8; 64]
    ensures { result ≡ settings_bytes seal.now }
{
    let mut front = ArrayVec::new();
    put(&mut front, &SEAL_TEXT);
    put_u32(&mut front, seal.version);
    put_u32(&mut front, seal.tag);
    put_u64(&mut front, seal.group);
    put_u64(&mut front, seal.sectors);
    put_u64(&mut front, seal.quota);
    put_u32(&mut front, seal.quota_flag);
    pad_to(&mut front, 48);
    put(&mut front, &seal.modes);
    full_array(front)
}

/// The state of the table's logs.
#[tactic(auto, unfolding(crate::specs::Spelling::state_bytes))]
fn state_of(seal: &Seal) -> [u8; 64]
    ensures { result ≡ state_bytes seal.now }
{
    let mut front = ArrayVec::new();
    put_u64(&mut front, seal.age);
    put_u64(&mut front, seal.active_changes);
    put_u64(&mut front, seal.flushing_changes);
    put_u32(&mut front, seal.checkpoint_flag);
    put_u32(&mut front, seal.checkpoint_len);
    put(&mut front, &seal.checkpoint_digest);
    full_array(front)
}

/// The pointers.
fn pointers_of(seal: &Seal) -> [u8; 240]
    ensures { result ≡ pointers_bytes seal.now }
{
    let mut front = ArrayVec::new();
    'pointers: for pointer in seal.pointers {
        put(&mut front, &pointer.to_bytes());
    }
    full_array(front)
}

/// The sums.
#[tactic(auto, unfolding(crate::specs::Spelling::sums_bytes))]
fn sums_of(seal: &Seal) -> [u8; 24]
    ensures { result ≡ sums_bytes seal.now }
{
    let mut front = ArrayVec::new();
    put_u64(&mut front, seal.homes);
    put_u64(&mut front, seal.counts);
    put_u64(&mut front, seal.pages);
    full_array(front)
}

/// All that a body's digest is of.
#[tactic(auto, unfolding(crate::specs::Spelling::signed_bytes))]
fn signed_of(seal: &Seal) -> [u8; 4064]
    ensures { result ≡ signed_bytes seal.now }
{
    let mut front = ArrayVec::new();
    put(&mut front, &settings_of(seal));
    put(&mut front, &state_of(seal));
    put(&mut front, &pointers_of(seal));
    put(&mut front, &sums_of(seal));
    pad_to(&mut front, SIGNED);
    full_array(front)
}

/// The body of a seal.
#[tactic(auto, unfolding(crate::specs::Spelling::body_bytes))]
pub(crate) fn body_of(seal: &Seal) -> [u8; 4096]
    ensures { result ≡ body_bytes seal.now }
{
    let signed = signed_of(seal);
    let mut front = ArrayVec::new();
    put(&mut front, &signed);
    put(&mut front, &Sha256::digest(&signed));
    full_array(front)
}

/// Whether the text is in front.
fn has_text(body: &[u8; 4096]) -> bool
    ensures { result ≡ bytes_eq (take 8 body.now) seal_text }
{
    body.split_at(8).0 == SEAL_TEXT.as_slice()
}

/// Whether the last 32 bytes are the digest of all before them.
fn has_digest(body: &[u8; 4096]) -> bool
    ensures { result ≡ bytes_eq (drop 4064 body.now) (sha256 (take 4064 body.now)) }
{
    let (signed, digest) = body.split_at(SIGNED);
    digest == Sha256::digest(signed).as_slice()
}

/// Whether bytes are a body.
#[tactic(auto, unfolding(crate::specs::Seals::is_body))]
fn is_whole(body: &[u8; 4096]) -> bool
    ensures { result ≡ is_body body.now }
{
    has_text(body) && has_digest(body)
}

/// The pointers that 240 bytes spell, one behind the other.
fn pointers_at(bytes: &[u8]) -> [PagePtr; 6]
    requires { 240 ≤ length bytes.now }
    ensures { result ≡ pointers_in 6 bytes.now }
{
    let (first, rest) = (PagePtr::from_bytes(bytes), bytes.split_at(40).1);
    let (second, rest) = (PagePtr::from_bytes(rest), rest.split_at(40).1);
    let (third, rest) = (PagePtr::from_bytes(rest), rest.split_at(40).1);
    let (fourth, rest) = (PagePtr::from_bytes(rest), rest.split_at(40).1);
    let (fifth, rest) = (PagePtr::from_bytes(rest), rest.split_at(40).1);
    let sixth = PagePtr::from_bytes(rest);
    [first, second, third, fourth, fifth, sixth]
}

/// The fields of a body, read at their offsets.
#[tactic(auto, unfolding(crate::specs::Seals::seal_in))]
fn fields_of(body: &[u8; 4096]) -> Seal
    ensures { result ≡ seal_in body.now }
{
    let pointers: [u8; 240] = array_at(body, 128);
    Seal {
        version: u32_at(body, 8),
        tag: u32_at(body, 12),
        group: u64_at(body, 16),
        sectors: u64_at(body, 24),
        quota: u64_at(body, 32),
        quota_flag: u32_at(body, 40),
        modes: array_at(body, 48),
        age: u64_at(body, 64),
        active_changes: u64_at(body, 72),
        flushing_changes: u64_at(body, 80),
        checkpoint_flag: u32_at(body, 88),
        checkpoint_len: u32_at(body, 92),
        checkpoint_digest: array_at(body, 96),
        pointers: pointers_at(&pointers),
        homes: u64_at(body, 368),
        counts: u64_at(body, 376),
        pages: u64_at(body, 384),
    }
}

/// The seal of a body, for a program that reads this version, in the ring's slot of this number.
/// `None` where it is no body, of another version, or of a group of another slot.
pub(crate) fn seal_of(body: &[u8; 4096], version: u32, slot: u32) -> Option<Seal>
    ensures { result ≡ body_seal version slot body.now }
{
    if !is_whole(body) {
        return None;
    }
    let seal = fields_of(body);
    if seal.version != version {
        return None;
    }
    if seal.group % 16 != u64::from(slot) {
        return None;
    }
    Some(seal)
}
