ghost use Rattle.std.specs.Prelude.{◌≡◌, ◌≤◌, length};
ghost use Rattle.std.specs.List.{AllByRecursion};
ghost use Rattle.page_tree.specs.Pointers.{FitsPointer, pointer_bytes, pointer_in};
ghost use Rattle.page_tree.specs.declared.pointer.PagePtr.{PagePtr};

use crate::front::{full_array, put, put_u64};
use arrayvec::ArrayVec;
use ddt_entry::fields::{array_at, u64_at};

/// Names a page: where it lies, and what it says.
#[derive(Clone, Copy, Debug, PartialEq, Eq)]
pub struct PagePtr {
    /// The number of the page's sector.
    pub sector: u64,
    /// The SHA-256 of the page's 4,096 bytes.
    pub digest: [u8; 32],
}

impl PagePtr {
    /// The pointer to no page.
    pub const NULL: PagePtr = PagePtr {
        sector: 0,
        digest: [0; 32],
    };

    /// The 40 bytes that spell the pointer.
    #[tactic(auto, unfolding(crate::specs::Pointers::pointer_bytes))]
    pub fn to_bytes(&self) -> [u8; 40]
        ensures { result ≡ pointer_bytes self.now }
    {
        let mut front = ArrayVec::new();
        put_u64(&mut front, self.sector);
        put(&mut front, &self.digest);
        full_array(front)
    }

    /// The pointer that the first 40 bytes spell.
    #[tactic(auto, unfolding(crate::specs::Pointers::pointer_in))]
    pub fn from_bytes(bytes: &[u8]) -> PagePtr
        requires { 40 ≤ length bytes.now }
        ensures { result ≡ pointer_in bytes.now }
    {
        PagePtr {
            sector: u64_at(bytes, 0),
            digest: array_at(bytes, 8),
        }
    }
}

/// A pointer that code has in hand fits, by the types of its fields.
pub fn pointer_fits(pointer: PagePtr)
    ensures { FitsPointer pointer }
{}

/// Pointers that code has in hand fit.
pub fn pointers_fit(pointers: &[PagePtr])
    ensures { AllByRecursion FitsPointer pointers.now }
{
    'pointers: for pointer in pointers {
        pointer_fits(*pointer);
    }
}
