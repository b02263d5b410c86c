ghost use Rattle.std.specs.Prelude.{ℕ, length, refl};
ghost use Rattle.ddt_entry.specs.Keys.{sha256_key};

use crate::key::{Key, KeyOf};
use sha2::{Digest, Sha256};

/// The key whose digest is SHA-256 (FIPS 180-4) of the content.
#[derive(Clone, Copy, Debug)]
pub struct Sha256Key;

impl KeyOf for Sha256Key {
    ghost keying = { λ _. record { key_of = sha256_key; tag = 1 } };

    ghost keeps_length = { λ _ _. refl };

    fn tag(&self) -> u8 {
        1
    }

    fn key(&self, content: &[u8]) -> Key {
        Key {
            digest: Sha256::digest(content),
            len: content.len() as u32,
        }
    }
}
