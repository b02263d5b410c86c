ghost use Rattle.std.specs.Prelude.{◌≡◌, ℕ, ◌<◌, ◌^◌, List, length};
ghost use Rattle.ddt_entry.specs.Keys.{Keying};

use std::marker::Sync;

/// The name of a content in the dedup table. Keys are ordered by digest bytes, and then by length.
#[derive(Clone, Copy, Debug, PartialEq, Eq, PartialOrd, Ord)]
pub struct Key {
    /// A digest of the content.
    pub digest: [u8; 32],
    /// The content's length in bytes.
    pub len: u32,
}

/// How a content's key is made. The key is a function of the content, and has its length.
pub trait KeyOf: Sync {
    /// The key of each content, and the number that stands for this function in an image.
    ghost keying: { Self → Keying };

    /// The number that stands for this function in an image.
    fn tag(&self) -> u8
        ensures { result ≡ (keying self.now).tag };

    /// The key of a content of 1 to 2^32 - 1 bytes. Takes no memory.
    fn key(&self, content: &[u8]) -> Key
        requires some { 0 < length content.now }
        requires fits { length content.now < 2 ^ 32 }
        ensures { result ≡ (keying self.now).key_of content.now };

    ghost keeps_length: { (keyer : Self) (content : List ℕ) → ((keying keyer).key_of content).len ≡ length content };
}
