//! Pages of a pool image, and the pointers that name them.
//!
//! A page is one sector. A `PagePtr` names a page by its sector and the SHA-256 of its bytes, so that
//! who holds a pointer can tell whether what a disk gives is the page that was written. A pointer
//! stands in other pages, and in the seal, as 40 bytes: the sector as a little-endian number, and the
//! digest. The null pointer is 40 zeros, and names no page.
//!
//! `front` builds the bytes of a sector piece by piece. It takes no memory, and it cannot fail: the
//! caller proves that a part fits. What stands at an offset is read by `ddt_entry::fields`.
//!
//! `PageReader` reads the page of a pointer and compares its digest; `PlainReader` does so by one read
//! of the disk. `NoPages` is for objects that are held in memory and have no page.
//!
//! A chain keeps a list of records of 72 bytes, 56 on a page; each page names the next one.
//! `write_chain` writes its pages from the last to the first, and its clause on crashes says that
//! no other sector is touched; `read_chain` walks it from its root.
//!
//! Laws of `proofs/` say that what is written is read back: a chain at places that are open, each once,
//! outside the ring and not named yet, `ChainBack.{writes_are_held, chain_is_read_back}`; a page,
//! `ChainLaws.{length-chain_page_bytes, is_chain_page-chain_page_bytes, chain_page_in-chain_page_bytes}`;
//! a pointer, and what spelled it, `PointerLaws.{length-pointer_bytes, pointer_in-pointer_bytes,
//! FitsPointer-pointer_in, pointer_bytes-pointer_in, null-value, pointer_bytes-null_pointer}`.
//!
//! The ring of seals and every writer and reader of pages stand on this crate.
#![tactic(auto)]

mod chain;
mod chain_page;
mod chain_walk;
mod fault;
pub mod front;
mod pointer;
mod reader;

pub use chain::write_chain;
pub use chain_page::PAGE_RECORDS;
pub use chain_walk::{RecordList, SectorList, read_chain};
pub use fault::{FindFault, PageFault};
pub use pointer::{PagePtr, pointer_fits, pointers_fit};
pub use reader::{NoPages, PageReader, PlainReader};
