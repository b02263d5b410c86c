ghost use Rattle.std.specs.Prelude.{ℕ, length, refl};
ghost use Rattle.ddt_entry.specs.Keys.{weak_key};

use crate::key::{Key, KeyOf};

/// A key whose digest is the content's first byte and 31 zeros, so that contents share a key at will.
/// It serves tests of what happens where two contents have one key.
#[derive(Clone, Copy, Debug)]
pub struct WeakKey;

impl KeyOf for WeakKey {
    ghost keying = { λ _. record { key_of = weak_key; tag = 255 } };

    ghost keeps_length = { λ _ _. refl };

    fn tag(&self) -> u8 {
        255
    }

    fn key(&self, content: &[u8]) -> Key {
        let mut digest = [0u8; 32];
        digest[0] = content[0];
        Key {
            digest,
            len: content.len() as u32,
        }
    }
}
