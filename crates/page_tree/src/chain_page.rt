ghost use Rattle.std.specs.Prelude.{◌≡◌, ◌≤◌, ◌<◌, ◌^◌, length, take};
ghost use Rattle.std.specs.Str.{bytes_eq};
ghost use Rattle.page_tree.specs.Chains.{chain_text, is_null, count_in, next_in, is_chain_page};
ghost use Rattle.page_tree.specs.ChainWrites.{chain_head, chain_page_bytes};

use crate::front::{full_array, pad_to, put, put_u32};
use crate::pointer::PagePtr;
use arrayvec::ArrayVec;
use ddt_entry::fields::u32_at;

/// What a page of a chain begins with.
const CHAIN_TEXT: [u8; 4] = *b"FLT0";

/// The most records that a page has.
pub const PAGE_RECORDS: usize = 56;

/// What stands before the records of a page.
#[tactic(auto, unfolding(crate::specs::ChainWrites::chain_head))]
fn head_of(next: &PagePtr, records: &[[u8; 72]]) -> [u8; 48]
    requires fits { length records.now < 2 ^ 32 }
    ensures { result ≡ chain_head (record { next = next.now; records = records.now }) }
{
    let mut front = ArrayVec::new();
    put(&mut front, &CHAIN_TEXT);
    put_u32(&mut front, records.len() as u32);
    put(&mut front, &next.to_bytes());
    full_array(front)
}

/// A page of a chain: its records, of which there are 56 at the most, and the pointer to the next page.
#[tactic(auto, unfolding(crate::specs::ChainWrites::chain_page_bytes))]
pub(crate) fn chain_page_of(next: &PagePtr, records: &[[u8; 72]]) -> [u8; 4096]
    requires room { length records.now ≤ 56 }
    ensures { result ≡ chain_page_bytes (record { next = next.now; records = records.now }) }
{
    let mut front = ArrayVec::new();
    put(&mut front, &head_of(next, records));
    'records: for record in records {
        put(&mut front, record);
    }
    pad_to(&mut front, 4096);
    full_array(front)
}

/// Whether a pointer names no page.
pub(crate) fn is_null_pointer(pointer: &PagePtr) -> bool
    ensures { result ≡ is_null pointer.now }
{
    pointer.sector == 0 && pointer.digest == [0u8; 32]
}

/// Whether the text is in front.
fn has_chain_text(page: &[u8; 4096]) -> bool
    ensures { result ≡ bytes_eq (take 4 page.now) chain_text }
{
    page.split_at(4).0 == CHAIN_TEXT.as_slice()
}

/// How many records a page says that it has.
#[tactic(auto, unfolding(crate::specs::Chains::count_in))]
pub(crate) fn count_of(page: &[u8; 4096]) -> u32
    ensures { result ≡ count_in page.now }
{
    u32_at(page, 4)
}

/// The pointer to the next page.
#[tactic(auto, unfolding(crate::specs::Chains::next_in))]
pub(crate) fn next_of(page: &[u8; 4096]) -> PagePtr
    ensures { result ≡ next_in page.now }
{
    PagePtr::from_bytes(page.split_at(8).1)
}

/// Whether bytes are a page of a chain.
#[tactic(auto, unfolding(crate::specs::Chains::is_chain_page))]
pub(crate) fn has_form(page: &[u8; 4096]) -> bool
    ensures { result ≡ is_chain_page page.now }
{
    let count = count_of(page);
    has_chain_text(page)
        && 1 <= count
        && count <= PAGE_RECORDS as u32
        && (is_null_pointer(&next_of(page)) || count == PAGE_RECORDS as u32)
}
