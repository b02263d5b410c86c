//! Whether a pool's quota has room for one more key.
//!
//! A key costs 256 bytes of the quota, in whatever form the table is kept. The rule stands here alone: the definitions of
//! a command cite `specs/Allows.antt`, and whoever makes a home of a new key asks `allows`.
#![tactic(auto)]

ghost use Rattle.std.specs.Prelude.{◌≡◌};
ghost use Rattle.quota_rule.specs.Allows.{allows};

/// What a key costs, in bytes of the quota.
const KEY_BYTES: u64 = 256;

/// Whether the quota, in bytes, if there is one, has room for one more key beside so many. Takes no memory.
pub fn allows(keys: u64, quota: Option<u64>) -> bool
    ensures { result ≡ allows keys quota }
{
    match quota {
        None => true,
        // 256 * (keys + 1) is at most the limit exactly here, and can't pass 64 bits.
        Some(limit) => keys < limit / KEY_BYTES,
    }
}
