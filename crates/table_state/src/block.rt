ghost use Rattle.std.specs.Prelude.{◌≡◌, ◌≤◌, length};
ghost use Rattle.table_state.specs.Pools.{block_sector};

use arrayvec::ArrayVec;
use page_tree::front::{full_array, pad_to, put};

/// A content as a sector has it: with zeros behind it.
#[tactic(auto, unfolding(ddt_entry::specs::Bytes::zeros))]
pub fn sector_of(content: &[u8]) -> [u8; 4096]
    requires { length content.now ≤ 4096 }
    ensures { result ≡ block_sector content.now }
{
    let mut front = ArrayVec::new();
    put(&mut front, content);
    pad_to(&mut front, 4096);
    full_array(front)
}
